// The ledger, the second buffer that is lent: a count, then the entries of the published messages in the order of
// publishing. The only positions in it in the code; the definitions have the same numbers in rules/specs/Ledger.antt,
// and the contracts tie the two.
#![tactic(auto)]

ghost use Rattle.std.specs.Prelude.{◌≡◌, [], ◌∷◌, ◌≤◌, ◌<◌, length};
ghost use Rattle.rules.specs.Limits.{house, last_entry};
ghost use Rattle.rules.specs.Ledger.{entry_words, entry_at, count_of, ledger_ok, appended};

// How many entries there are, and the words of each.
pub const ENTRIES: usize = 128;

pub const MESSAGE_WORD: usize = 0;

pub const PAYLOAD_WORD: usize = 1;

pub const ENTRY_WORDS: usize = 2;

// The count, and the entries after it.
pub const COUNT: usize = 0;

pub const ENTRIES_FROM: usize = 1;

pub const LEDGER_WORDS: usize = ENTRIES_FROM + ENTRIES * ENTRY_WORDS;

// The lent ledger.
pub type Ledger = [u32; LEDGER_WORDS];

// How many entries stand in the ledger.
pub fn count(g: &Ledger) -> u32
    ensures { result ≡ count_of g.now }
{
    g[COUNT]
}

// Where entry j begins; after the last one the ledger ends.
pub fn entry_at(j: usize) -> usize
    requires { j ≤ last_entry }
    ensures { result ≡ entry_at j }
{
    ENTRIES_FROM + j * ENTRY_WORDS
}

// Whether the ledger is as the host must lend it: of its length, the count at most the entries, and zeros past the
// count.
pub fn is_sound(g: &[u32]) -> bool
    ensures { result ≡ ledger_ok house g.now }
{
    let Some(g) = g.as_array() else {
        return false;
    };
    let n = count(g) as usize;
    if ENTRIES < n {
        return false;
    }
    parts::all_zero(&g[entry_at(n)..])
}

// The words of an entry, lent from inside the ledger.
pub fn write_entry(d: &mut [u32], m: u32, payload: u32)
    requires { length d.old ≡ entry_words }
    ensures { d.new ≡ (m ∷ payload ∷ []) }
{
    d[MESSAGE_WORD] = m;
    d[PAYLOAD_WORD] = payload;
}

// One entry more, behind those that are there.
pub fn append(g: &mut Ledger, m: u32, payload: u32)
    requires { count_of g.old < last_entry }
    ensures { g.new ≡ appended g.old (m ∷ payload ∷ []) }
{
    let n = count(g);
    let from = entry_at(n as usize);
    let to = from + ENTRY_WORDS;
    write_entry(&mut g[from..to], m, payload);
    g[COUNT] = n + 1;
}
