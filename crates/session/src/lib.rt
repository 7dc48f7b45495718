// The program between its reads and its writes: the bytes of its input become steps on the table and the ledger, and
// lines of answers.
#![tactic(auto)]

mod line;

ghost use Rattle.std.specs.Prelude.{◌≡◌, [], ◌+◌, ◌*◌, ◌≤◌, length, take, drop};
ghost use Rattle.formed.specs.Carry.{FormKnown};
ghost use Rattle.printing.specs.Parts.{answer_room};
ghost use Rattle.session.specs.Taking.{session, ended, taken, taken_all, finished, served};

pub use line::Line;
use lines::LINE_FEED;
use printing::Output;
use table::Table;

// A house that is driven from text: its lent table and ledger, whether the table is in form, and the line that hasn't
// ended. The clauses speak of its fields, so that these are public; who writes one keeps `form_known` true.
#[derive(Drop)]
pub struct Session<'a> {
    pub table: &'a mut Table,
    pub ledger: &'a mut [u32],
    pub formed: bool,
    pub line: Line,
    pub ghost form_known: { FormKnown table.now formed },
}

impl<'a> Session<'a> {
    ghost use Rattle.session.specs.Driven.{with_owed, owing, Added, SameReferences};

    pub fn new(table: &'a mut Table, ledger: &'a mut [u32], formed: bool) -> Self
        requires { FormKnown table.old formed }
        ensures begun { with_owed result [] ≡ session table.old ledger.old [] [] }
        ensures same_references { (result.table.ghost_name ≡ table.entry.ghost_name) × (result.ledger.ghost_name ≡ ledger.entry.ghost_name) }
    {
        Session {
            table,
            ledger,
            formed,
            line: Line::new(),
        }
    }

    // The line has ended: its answer goes out.
    fn end_line(&mut self, out: &mut Output)
        requires { out.old.end + answer_room ≤ length out.old.bytes.now }
        ensures answers { owing self.new out.new ≡ ended (owing self.old out.old) }
        ensures room { Added out.old answer_room out.new }
        ensures same_references { SameReferences self.old self.new }
    {
        let asked = parsing::parse(self.line.as_slice());
        self.line.clear();
        let Some(x) = asked else {
            out.bad();
            return;
        };
        let r = formed::step_carried(self.table, self.ledger, self.formed, x);
        self.formed = r.formed;
        out.answer(r.answer);
    }

    // One byte of input.
    fn take_byte(&mut self, b: u8, out: &mut Output)
        requires { out.old.end + answer_room ≤ length out.old.bytes.now }
        ensures answers { owing self.new out.new ≡ taken (owing self.old out.old) b }
        ensures room { Added out.old answer_room out.new }
        ensures same_references { SameReferences self.old self.new }
    {
        if b == LINE_FEED {
            self.end_line(out);
        } else {
            self.line.push(b);
        }
    }

    // Some bytes.
    fn take_bytes(&mut self, bytes: &[u8], out: &mut Output)
        requires { out.old.end + answer_room * length bytes.now ≤ length out.old.bytes.now }
        ensures answers { owing self.new out.new ≡ taken_all (owing self.old out.old) bytes.now }
        ensures room { Added out.old (answer_room * length bytes.now) out.new }
        ensures same_references { SameReferences self.old self.new }
    {
        for b in bytes {
            self.take_byte(*b, out);
        }
    }

    // The input has ended: a last line without line feed counts.
    fn finish(&mut self, out: &mut Output)
        requires { out.old.end + answer_room ≤ length out.old.bytes.now }
        ensures answers { owing self.new out.new ≡ finished (owing self.old out.old) }
        ensures room { Added out.old answer_room out.new }
        ensures same_references { SameReferences self.old self.new }
    {
        if !self.line.as_slice().is_empty() {
            self.end_line(out);
        }
    }

    // A read; one without bytes is the end of the input. Its answers stand at the start of `out`, whose other bytes
    // stay. Answers how many bytes they have.
    pub fn serve(&mut self, bytes: &[u8], out: &mut [u8]) -> usize
        requires { (answer_room * length bytes.now ≤ length out.old) × (answer_room ≤ length out.old) }
        ensures answers { with_owed self.new (take result out.new) ≡ served (with_owed self.old []) bytes.now }
        ensures room { (result ≤ length out.new) × (drop result out.new ≡ drop result out.old) }
        ensures same_references { SameReferences self.old self.new }
    {
        let mut owed = Output::new(out);
        if bytes.is_empty() {
            self.finish(&mut owed);
        } else {
            self.take_bytes(bytes, &mut owed);
        }
        owed.end
    }
}
