// The C interface: one step, a list of steps, the step that sets the gap, the release of a set, the dispatcher, and two
// questions, on buffers that the caller lends. include/goulvizad.h documents it.
#![tactic(auto)]

ghost use Rattle.std.specs.Prelude.{◌≡◌, List, ℕ};
ghost use Rattle.goulvizad.specs.Call.{gap_call, set_call, dispatch_call};
ghost use Rattle.questions.specs.Numbers.{form_number, checkpoint_number};
ghost use Rattle.run.specs.Call.{returned, call};
ghost use Rattle.run.specs.Run.{run};

use run::Fault;

// What a run returns that is done: the number of the answer `done`.
const RAN_ALL: u32 = 0;

// One step, by its letter. The value buffer is looked at first, then the letter; d is a number that no step has yet.
#[unsafe(no_mangle)]
pub extern "C" fn goulvizad_step(
    t: &mut [u32],
    g: &mut [u32],
    letter: u32,
    a: u32,
    b: u32,
    c: u32,
    d: u32,
    values: &mut [u32],
) -> u32
    ensures { returned result t.new g.new values.new ≡ call t.old g.old values.old letter a b c d }
{
    let Some(values) = values.as_mut_array() else {
        return u32::from(Fault::WrongValues);
    };
    let Some(x) = parsing::step_of(letter, a, b, c) else {
        return u32::from(Fault::UnknownLetter);
    };
    reporting::give_answer(machine::step(t, g, x), values)
}

// A list of steps, as one after the other; the form of the table is looked at once.
#[unsafe(no_mangle)]
pub extern "C" fn goulvizad_run(
    t: &mut [u32],
    g: &mut [u32],
    steps: &[u32],
    answers: &mut [u32],
) -> u32
    ensures { returned result t.new g.new answers.new ≡ run t.old g.old steps.now answers.old }
{
    match run::run(t, g, steps, answers) {
        Ok(()) => RAN_ALL,
        Err(fault) => u32::from(fault),
    }
}

// The step that sets the gap, which has no letter. It doesn't look at the ledger: whatever it is, it stays.
#[unsafe(no_mangle)]
pub extern "C" fn goulvizad_set_gap(t: &mut [u32], gap: u32, values: &mut [u32]) -> u32
    ensures { (g : List ℕ) → returned result t.new g values.new ≡ gap_call t.old g values.old gap }
{
    let Some(values) = values.as_mut_array() else {
        return u32::from(Fault::WrongValues);
    };
    let answer = machine::set_gap(t, gap);
    reporting::give_answer(answer, values)
}

// Messages released as a set, which has no letter either.
#[unsafe(no_mangle)]
pub extern "C" fn goulvizad_release_set(
    t: &mut [u32],
    g: &mut [u32],
    messages: &[u32],
    values: &mut [u32],
) -> u32
    ensures { returned result t.new g.new values.new ≡ set_call t.old g.old values.old messages.now }
{
    let Some(values) = values.as_mut_array() else {
        return u32::from(Fault::WrongValues);
    };
    reporting::give_answer(sets::release_set(t, g, messages), values)
}

// One call of the dispatcher, which looks at the table alone.
#[unsafe(no_mangle)]
pub extern "C" fn goulvizad_dispatch(t: &mut [u32], values: &mut [u32]) -> u32
    ensures { (g : List ℕ) → returned result t.new g values.new ≡ dispatch_call t.old g values.old }
{
    let Some(values) = values.as_mut_array() else {
        return u32::from(Fault::WrongValues);
    };
    let said = dispatch::dispatch(t);
    reporting::give_answer(said, values)
}

// Whether the table has its length and is in form.
#[unsafe(no_mangle)]
pub extern "C" fn goulvizad_in_form(t: &[u32]) -> u32
    ensures { result ≡ form_number t.now }
{
    u32::from(questions::is_formed(t))
}

// Whether the newest live interval of a controller is a checkpoint, so that a caller can see one that the gap has
// forced.
#[unsafe(no_mangle)]
pub extern "C" fn goulvizad_is_checkpoint(t: &[u32], controller: u32) -> u32
    ensures { result ≡ checkpoint_number t.now controller }
{
    u32::from(questions::is_checkpoint(t, controller))
}
