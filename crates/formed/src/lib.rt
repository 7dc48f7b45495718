// Steps on a table of which it is known whether it is in form, so that its words needn't be looked at.
#![tactic(auto)]

ghost use Rattle.std.specs.Prelude.{◌≡◌};
ghost use Rattle.rules.specs.Step.{out_both, step};
ghost use Rattle.laws.specs.Answering.{Lent};
ghost use Rattle.formed.specs.Carry.{is_done, FormKnown};

use rules::{Answer, Command, Refusal};
use table::Table;

// A step on a table in form. It leaves one in form.
pub fn step_in_form(t: &mut Table, g: &mut [u32], x: Command) -> Answer
    requires { Lent t.old }
    ensures answered { out_both result t.new g.new ≡ step t.old g.old x }
    ensures lent { Lent t.new }
{
    Answer::from(machine::perform(t, g, x))
}

fn is_done(a: Answer) -> bool
    ensures { result ≡ is_done a }
{
    matches!(a, Answer::Done)
}

// An answer, and whether the table that is left is in form.
#[derive(Clone, Copy)]
pub struct Carried {
    pub answer: Answer,
    pub formed: bool,
}

// A step on a table, `formed` saying whether that is in form. Where it isn't, every step but an opening is refused,
// and an opening that is done leaves one in form.
pub fn step_carried(t: &mut Table, g: &mut [u32], formed: bool, x: Command) -> Carried
    requires { FormKnown t.old formed }
    ensures answered { out_both result.answer t.new g.new ≡ step t.old g.old x }
    ensures form_known { FormKnown t.new result.formed }
{
    if formed {
        let a = step_in_form(t, g, x);
        return Carried {
            answer: a,
            formed: true,
        };
    }
    if machine::looks_at_form(x) {
        return Carried {
            answer: Answer::Refused(u32::from(Refusal::Form)),
            formed: false,
        };
    }
    let a = Answer::from(machine::perform(t, g, x));
    Carried {
        answer: a,
        formed: is_done(a),
    }
}
