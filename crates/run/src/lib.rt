// Many steps in one call, over the lent words of the steps and of their answers. The form of the table is looked at
// once, and from then on known.
#![tactic(auto)]

ghost use Rattle.std.specs.Prelude.{◌≡◌, true, Some, ◌*◌, length};
ghost use Rattle.std.specs.List.{concat};
ghost use Rattle.base.specs.Ranges.{allb};
ghost use Rattle.rules.specs.Step.{out_both, step};
ghost use Rattle.run.specs.Call.{returned, taken};
ghost use Rattle.run.specs.Faults.{number, number_of};
ghost use Rattle.run.specs.Run.{step_words, answer_words, no_values, asked_by, known, call_by, ran_all, ran_to, lengths_fit, run};
ghost use Rattle.run.specs.Running.{form_of, in_answer};

use formed::Carried;
use rules::{Answer, Command, Refusal};

// A step of the list: its letter and its numbers a, b, c, d, of which no step has the last yet.
const STEP_WORDS: usize = 5;

const LETTER_WORD: usize = 0;

const A_WORD: usize = 1;

const B_WORD: usize = 2;

const C_WORD: usize = 3;

// An answer: its number and its values.
const ANSWER_WORDS: usize = 7;

const NUMBER_WORD: usize = 0;

const FIRST_VALUE: usize = 1;

// Why a call changes nothing, where that is no answer: what the C interface returns besides the numbers of the answers.
#[derive(Clone, Copy, PartialEq, Eq)]
pub enum Fault {
    UnknownLetter = 100,
    WrongValues = 101,
}

impl From<Fault> for u32 {
    ghost from_gives = { λ fault n. n ≡ number fault };

    fn from(fault: Fault) -> u32 {
        fault as u32
    }
}

// Whether so many words are those of whole steps and of as many whole answers.
fn lengths_fit(steps: usize, answers: usize) -> bool
    ensures { result ≡ lengths_fit steps answers }
{
    steps % STEP_WORDS == 0
        && answers % ANSWER_WORDS == 0
        && steps / STEP_WORDS == answers / ANSWER_WORDS
}

// What a step of the list asks.
fn asked_by(step: &[u32; STEP_WORDS]) -> Option<Command>
    ensures { result ≡ asked_by step.now 0 }
{
    parsing::step_of(step[LETTER_WORD], step[A_WORD], step[B_WORD], step[C_WORD])
}

// Whether the letters of all steps are known.
fn letters_known(steps: &[[u32; STEP_WORDS]]) -> bool
    ensures { result ≡ allb (length steps.now) (λ i. known (asked_by (concat steps.now) i)) }
{
    let mut all = true;
    for step in steps {
        all &= asked_by(step).is_some();
    }
    all
}

// Whether the table has its length and is in form: the only look at its words.
fn form_of(t: &[u32]) -> bool
    ensures { result ≡ form_of t.now }
{
    match t.as_array() {
        None => false,
        Some(t) => form::in_form(t),
    }
}

// A step on a table of which it is known whether it has its length and is in form.
fn step_known(t: &mut [u32], g: &mut [u32], formed: bool, x: Command) -> Carried
    requires { formed ≡ form_of t.old }
    ensures answered { out_both result.answer t.new g.new ≡ step t.old g.old x }
    ensures form_known { result.formed ≡ form_of t.new }
{
    let Some(t) = t.as_mut_array() else {
        return Carried {
            answer: Answer::Refused(u32::from(Refusal::Length)),
            formed: false,
        };
    };
    formed::step_carried(t, g, formed, x)
}

// A step, with its answer's number and values in the words d. Says whether the table that is left is in form.
fn answer_step(t: &mut [u32], g: &mut [u32], formed: bool, x: Command, d: &mut [u32]) -> bool
    requires { (formed ≡ form_of t.old) × (length d.old ≡ answer_words) }
    ensures answered { returned ran_all t.new g.new d.new ≡ in_answer (taken t.old g.old no_values (Some x)) }
    ensures form_known { result ≡ form_of t.new }
{
    let done = step_known(t, g, formed, x);
    let (number, values) = reporting::report(done.answer);
    d[NUMBER_WORD] = number;
    d[FIRST_VALUE..].copy_from_slice(&values);
    done.formed
}

// A step of the list, whose letter is known, with its answer in the words d.
fn run_step(
    t: &mut [u32],
    g: &mut [u32],
    formed: bool,
    step: &[u32; STEP_WORDS],
    d: &mut [u32],
) -> bool
    requires { (formed ≡ form_of t.old) × (length d.old ≡ answer_words) × (known (asked_by step.now 0) ≡ true) }
    ensures answered { returned ran_all t.new g.new d.new ≡ in_answer (call_by t.old g.old step.now 0) }
    ensures form_known { result ≡ form_of t.new }
{
    let Some(x) = asked_by(step) else {
        return formed;
    };
    answer_step(t, g, formed, x, d)
}

// All steps of the list, whose letters are known.
fn run_steps(t: &mut [u32], g: &mut [u32], steps: &[[u32; STEP_WORDS]], answers: &mut [u32])
    requires { (length steps.now * answer_words ≡ length answers.old) × (allb (length steps.now) (λ i. known (asked_by (concat steps.now) i)) ≡ true) }
    ensures { returned ran_all t.new g.new answers.new ≡ ran_to t.old g.old (concat steps.now) (length steps.now) }
{
    let mut formed = form_of(t);
    for (i, step) in steps.iter().enumerate() {
        let from = i * ANSWER_WORDS;
        let to = from + ANSWER_WORDS;
        formed = run_step(t, g, formed, step, &mut answers[from..to]);
    }
}

// The steps of the list, one by one, each answer in its words. Where the lengths don't fit or a letter is unknown,
// nothing is done.
pub fn run(t: &mut [u32], g: &mut [u32], steps: &[u32], answers: &mut [u32]) -> Result<(), Fault>
    ensures { returned (number_of result) t.new g.new answers.new ≡ run t.old g.old steps.now answers.old }
{
    if !lengths_fit(steps.len(), answers.len()) {
        return Err(Fault::WrongValues);
    }
    let (steps, _) = steps.as_chunks::<STEP_WORDS>();
    if !letters_known(steps) {
        return Err(Fault::UnknownLetter);
    }
    run_steps(t, g, steps, answers);
    Ok(())
}
