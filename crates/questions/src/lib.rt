// What can be asked of a lent table: whether it is in form, and whether a controller stands at a checkpoint.
#![tactic(auto)]

ghost use Rattle.std.specs.Prelude.{◌≡◌, true, cond, ◌&&◌, ◌==◌};
ghost use Rattle.base.specs.Choice.{◌<?◌};
ghost use Rattle.table.specs.Field.{Size, Flag};
ghost use Rattle.table.specs.Words.{state};
ghost use Rattle.rules.specs.Limits.{house};
ghost use Rattle.rules.specs.Form.{in_form};
ghost use Rattle.rules.specs.Shared.{newest_place};
ghost use Rattle.questions.specs.Numbers.{formed, unformed, form_number, checkpoint, no_checkpoint, checkpoint_number};

use table::Table;

// Whether the table has its length and is in form. The head is looked at here: a table that was never opened needs no
// further call.
pub fn is_formed(t: &[u32]) -> bool
    ensures { cond result formed unformed ≡ form_number t.now }
{
    match t.as_array() {
        None => false,
        Some(t) => records::head_ok(t) && form::records_ok(t),
    }
}

// Whether the newest live interval of a controller is a checkpoint. Its place is told by the live count, a word like
// any other: the form of the table is looked at first.
pub fn is_checkpoint(t: &[u32], controller: u32) -> bool
    ensures { cond result checkpoint no_checkpoint ≡ checkpoint_number t.now controller }
{
    let Some(t) = t.as_array() else {
        return false;
    };
    form::in_form(t) && newest_flagged(t, controller)
}

// The same in a table that is in form.
fn newest_flagged(t: &Table, controller: u32) -> bool
    requires { in_form house (state t.now) ≡ true }
    ensures { let σ = state t.now in
        result ≡ ((controller <? σ Size) && (σ (Flag controller (newest_place σ controller)) == 1)) }
{
    if table::size(t) <= controller {
        return false;
    }
    let c = controller as usize;
    let newest = table::live_count(t, c) as usize - 1;
    table::flag(t, c, newest) == 1
}
