// What state a message in a record is in. The word 0 is of a record that isn't in use; 4, lost, is in form, but no step gives it.

ghost use Rattle.std.specs.Prelude.{◌≡◌};
ghost use Rattle.table.specs.Status.{word};

#[derive(Clone, Copy, PartialEq, Eq)]
pub enum Status {
    Held = 1,
    Released = 2,
    Delivered = 3,
    Dropped = 5,
    Published = 6,
}

impl From<Status> for u32 {
    ghost from_gives = { λ s x. x ≡ word s };

    fn from(s: Status) -> u32 {
        s as u32
    }
}
