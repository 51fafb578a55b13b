// The raw words of a gate's frames: 64 lanes at once.
ghost use Rattle.std.specs.Prelude.{◌≡◌, true, [], ◌∷◌, ◌+◌, length, get_or};
ghost use Rattle.std.proofs.lemmas.List.Edits.{sets};
ghost use Rattle.method.specs.Kinds.{takes};
ghost use Rattle.evaluation.specs.Steps.{Joins, Points, Raw, Row, flipped, gate_word, mask, parity, raw_words, rule_of, sources, turned};

use method::Kind;

// How a kind works on words: the lanes in which an odd number of entries are 1, or else those in which some entry is, each
// turned first; then the result flipped. To turn or flip is all lanes or none, so that eight kinds need two ways. The kind
// itself is there for the contracts.
#[derive(Clone, Copy)]
pub(crate) struct Rule {
    kind: Kind,
    parity: bool,
    turn: u64,
    flip: u64,
}

pub(crate) fn rule_of(kind: Kind) -> Rule
    ensures { result ≡ rule_of kind }
{
    let parity = is_parity(kind);
    let turn = turn_of(kind);
    let flip = flip_of(kind);
    Rule {
        kind,
        parity,
        turn,
        flip,
    }
}

// Whether an odd number of entries has to be 1. A question for each of the three: one `match` for all makes a jump that is guessed
// wrong.
fn is_parity(kind: Kind) -> bool
    ensures { result ≡ parity kind }
{
    matches!(kind, Kind::Xor | Kind::Xnor)
}

// AND and NAND ask whether some entry, turned, is 1: whether some entry is 0.
fn turn_of(kind: Kind) -> u64
    ensures { result ≡ mask (turned kind) }
{
    match kind {
        Kind::And | Kind::Nand => u64::MAX,
        Kind::Buf | Kind::Not | Kind::Or | Kind::Nor | Kind::Xor | Kind::Xnor => 0,
    }
}

// NOT, NOR and XNOR are complements; so is AND, of "some entry, turned, is 1".
fn flip_of(kind: Kind) -> u64
    ensures { result ≡ mask (flipped kind) }
{
    match kind {
        Kind::Not | Kind::And | Kind::Nor | Kind::Xnor => u64::MAX,
        Kind::Buf | Kind::Nand | Kind::Or | Kind::Xor => 0,
    }
}

// Writes the raw words of a gate of two fan-ins from `first` on; the fan-ins' frames start at x and y, the rows at `at`.
pub(crate) fn pair_rows(
    values: &mut [u64],
    first: usize,
    frames: usize,
    x: usize,
    y: usize,
    fanins: &[u16],
    at: usize,
    rule: Rule,
)
    requires { Raw (length values.old) (x ∷ y ∷ []) fanins.now rule.kind at 2 first frames × (rule ≡ rule_of rule.kind) }
    ensures { values.new ≡ sets values.old first (raw_words values.old (x ∷ y ∷ []) fanins.now rule.kind 2 at frames) }
{
    let mut row = at;
    for k in 0..frames {
        let a = source(values, x, fanins, row);
        let b = source(values, y, fanins, row + 1);
        values[first + k] = pair_word(rule, a, b);
        row += 2;
    }
}

// The raw word of a frame from two words. Where entries are turned, that some turned one is 1 means that not all are: `&` does it in
// fewer steps. What is asked of the rule is the same at every frame, so it can be asked before the loop.
fn pair_word(rule: Rule, x: u64, y: u64) -> u64
    requires { (takes rule.kind 2 ≡ true) × (rule ≡ rule_of rule.kind) }
    ensures { result ≡ gate_word rule.kind (x ∷ y ∷ []) }
{
    let turn = rule.turn;
    let flip = rule.flip;
    if rule.parity {
        return (x ^ y) ^ flip;
    }
    if turn == 0 {
        return (x | y) ^ flip;
    }
    (x & y) ^ (turn ^ flip)
}

// Writes the raw words of a gate of any number of fan-ins from `first` on. The kind is asked before the loop, not in it.
pub(crate) fn wide_rows(
    values: &mut [u64],
    first: usize,
    frames: usize,
    bases: &[usize; 8],
    fanins: &[u16],
    at: usize,
    entries: usize,
    rule: Rule,
)
    requires { Raw (length values.old) bases.now fanins.now rule.kind at entries first frames × (rule ≡ rule_of rule.kind) }
    ensures { values.new ≡ sets values.old first (raw_words values.old bases.now fanins.now rule.kind entries at frames) }
{
    let turn = rule.turn;
    if rule.parity {
        let odd = |word: u64, entry: u64| word ^ entry;
        joined_rows(values, first, frames, bases, fanins, at, entries, rule, odd);
        return;
    }
    let some = |word: u64, entry: u64| word | (entry ^ turn);
    joined_rows(
        values, first, frames, bases, fanins, at, entries, rule, some,
    );
}

// The words of a gate whose rule puts entries together as `join` does. It is compiled once for each way to join.
fn joined_rows<F: Fn(u64, u64) -> u64>(
    values: &mut [u64],
    first: usize,
    frames: usize,
    bases: &[usize; 8],
    fanins: &[u16],
    at: usize,
    entries: usize,
    rule: Rule,
    join: F,
)
    requires raw { Raw (length values.old) bases.now fanins.now rule.kind at entries first frames × (rule ≡ rule_of rule.kind) }
    requires callable { F.IsAlwaysCallable join }
    requires joins { Joins rule (F.post join) }
    ensures { values.new ≡ sets values.old first (raw_words values.old bases.now fanins.now rule.kind entries at frames) }
{
    let mut row = at;
    for k in 0..frames {
        values[first + k] = row_word(values, bases, fanins, row, entries, rule, &join);
        row += entries;
    }
}

// The raw word of a frame from its row: the entries put together by `join`, then flipped.
fn row_word<F: Fn(u64, u64) -> u64>(
    values: &[u64],
    bases: &[usize; 8],
    fanins: &[u16],
    at: usize,
    entries: usize,
    rule: Rule,
    join: &F,
) -> u64
    requires row { Row (length values.now) bases.now fanins.now at entries × (takes rule.kind entries ≡ true) × (rule ≡ rule_of rule.kind) }
    requires callable { F.IsAlwaysCallable join.now }
    requires joins { Joins rule (F.post join.now) }
    ensures { result ≡ gate_word rule.kind (sources values.now bases.now fanins.now at entries) }
{
    let mut word: u64 = 0;
    for e in 0..entries {
        word = join(word, source(values, bases[e], fanins, at + e));
    }
    word ^ rule.flip
}

// The word that the entry at this place of the fan-in area points to, for a fan-in whose frames start at `base`.
fn source(values: &[u64], base: usize, fanins: &[u16], place: usize) -> u64
    requires { Points (length values.now) base fanins.now place }
    ensures { result ≡ get_or values.now (base + get_or fanins.now place 0) 0 }
{
    values[base + fanins[place] as usize]
}
