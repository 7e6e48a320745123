//! The lines of a script, and the entries that they say.
ghost use Rattle.std.specs.Prelude.{◌≡◌, ℕ, ℤ, ◌<◌, ◌^◌, [], ◌∷◌, List, IfErr, IfSome};
ghost use Rattle.std.specs.Fmt.{decimal};
ghost use Rattle.std.specs.Str.Iter.{split_whitespace_rest};
ghost use Rattle.script.specs.Words.{HasWords, before_comment};
ghost use Rattle.script.specs.Text.{ReadsAs, ReadsNumbers, HasNumbers, kind_of, words_of, text_of};
ghost use Rattle.script.specs.declared.entry.Entry.{Entry};
ghost use Rattle.script.specs.declared.entry.Entry.TheVariants as entry;
ghost use Rattle.script.specs.Reading.{Unreadable};

use crate::hex;
use crate::reason::{Malformed, Range, Untaken};
use std::alloc::Global;
use std::str::{FromStr, SplitWhitespace};

// What one line says.
#[derive(Drop)]
pub(crate) enum Entry {
    Cluster {
        nodes: u64,
        faults: u64,
        drift: u64,
        jitter: u64,
    },
    Timing {
        length: u64,
        pause: u64,
        message: u64,
        wire: u64,
    },
    Good {
        node: u64,
        value: u32,
        ahead: u64,
    },
    Bad {
        node: u64,
    },
    Round,
    Says {
        from: u64,
        to: u64,
        reading: u64,
        content: Content,
    },
    Jitter {
        node: u64,
        of: u64,
        by: i64,
    },
    Drift {
        node: u64,
        by: i64,
    },
    Value {
        node: u64,
        next: u32,
    },
}

// What a message is: the values of a frame of its sender in its round, or bytes as they are.
#[derive(Drop)]
pub(crate) enum Content {
    Values(Vec<u32>),
    Bytes(Vec<u8>),
}

// Numbers that a script writes, each type with its range.
trait Ranged: FromStr {
    const RANGE: Range;
}

impl Ranged for u64 {
    const RANGE: Range = Range::Natural64;
}

impl Ranged for u32 {
    const RANGE: Range = Range::Natural32;
}

impl Ranged for i64 {
    const RANGE: Range = Range::Signed64;
}

// What a line says; nothing if there is only a comment on it.
pub(crate) fn parse(heap: Global, line: &str) -> Result<Option<Entry>, Untaken<'_>>
    ensures err { IfErr result Unreadable }
    // The words of an entry that has only numbers are read as this entry.
    ensures numbers { (said : Entry) → HasNumbers said → HasWords (before_comment line.now) (words_of said) → result ≡ Ok (Some said) }
    // The text that such an entry is printed as is read as this entry.
    ensures reads_back { (said : Entry) → HasNumbers said → line.now ≡ text_of said → result ≡ Ok (Some said) }
{
    let mut words = without_comment(line).split_whitespace();
    let Some(kind) = words.next() else {
        return Ok(None);
    };
    let entry = read_entry(heap, kind, &mut words)?;
    match words.next() {
        Some(word) => Err(Malformed::TooLong { word }.into()),
        None => Ok(Some(entry)),
    }
}

fn without_comment(line: &str) -> &str
    ensures { result.now ≡ before_comment line.now }
{
    line.split_once('#').map_or(line, |(before, _)| before)
}

// What the words behind the first one say.
// A match on words is plainer than a table of closures that is searched by hand.
fn read_entry<'a>(
    heap: Global,
    kind: &'a str,
    words: &mut SplitWhitespace<'a>,
) -> Result<Entry, Untaken<'a>>
    ensures err { IfErr result Unreadable }
    ensures numbers { (line : Entry) → kind.now ≡ kind_of line → ReadsNumbers (split_whitespace_rest words.old) result (split_whitespace_rest words.new) line }
{
    match kind {
        "cluster" => taken(cluster(words)),
        "timing" => taken(timing(words)),
        "good" => taken(good(words)),
        "bad" => taken(bad(words)),
        "round" => Ok(Entry::Round),
        "says" => says(heap, words),
        "jitter" => taken(jitter(words)),
        "drift" => taken(drift(words)),
        "value" => taken(value(words)),
        word => Err(Malformed::UnknownWord { word }.into()),
    }
}

// An entry is taken once it is read.
fn taken<'a>(read: Result<Entry, Malformed<'a>>) -> Result<Entry, Untaken<'a>>
    ensures err { IfErr result Unreadable }
    ensures ok { (said : Entry) → read.entry ≡ Ok said → result ≡ Ok said }
{
    Ok(read?)
}

fn cluster<'a>(words: &mut SplitWhitespace<'a>) -> Result<Entry, Malformed<'a>>
    ensures { (nodes faults drift jitter : ℕ) → ReadsNumbers (split_whitespace_rest words.old) result (split_whitespace_rest words.new) (entry.Cluster nodes faults drift jitter) }
{
    let (nodes, faults, drift, jitter) = four(words, "nodes", "faults", "drift", "jitter")?;
    Ok(Entry::Cluster {
        nodes,
        faults,
        drift,
        jitter,
    })
}

fn timing<'a>(words: &mut SplitWhitespace<'a>) -> Result<Entry, Malformed<'a>>
    ensures { (length pause message wire : ℕ) → ReadsNumbers (split_whitespace_rest words.old) result (split_whitespace_rest words.new) (entry.Timing length pause message wire) }
{
    let (length, pause, message, wire) = four(words, "length", "pause", "message", "wire")?;
    Ok(Entry::Timing {
        length,
        pause,
        message,
        wire,
    })
}

fn good<'a>(words: &mut SplitWhitespace<'a>) -> Result<Entry, Malformed<'a>>
    ensures { (node value ahead : ℕ) → ReadsNumbers (split_whitespace_rest words.old) result (split_whitespace_rest words.new) (entry.Good node value ahead) }
{
    let node = number(words, "good")?;
    let (value, ahead) = pair(words, "value", "ahead")?;
    Ok(Entry::Good { node, value, ahead })
}

fn bad<'a>(words: &mut SplitWhitespace<'a>) -> Result<Entry, Malformed<'a>>
    ensures { (node : ℕ) → ReadsNumbers (split_whitespace_rest words.old) result (split_whitespace_rest words.new) (entry.Bad node) }
{
    let node = number(words, "bad")?;
    Ok(Entry::Bad { node })
}

fn says<'a>(heap: Global, words: &mut SplitWhitespace<'a>) -> Result<Entry, Untaken<'a>>
    ensures { IfErr result Unreadable }
{
    let from = number(words, "says")?;
    let to = named(words, "to")?;
    let reading = named(words, "reading")?;
    let content = read_content(heap, words)?;
    Ok(Entry::Says {
        from,
        to,
        reading,
        content,
    })
}

fn read_content<'a>(heap: Global, words: &mut SplitWhitespace<'a>) -> Result<Content, Untaken<'a>>
    ensures { IfErr result Unreadable }
{
    match words.next() {
        Some("value") => Ok(Content::Values(values(heap, words)?)),
        Some("bytes") => Ok(Content::Bytes(bytes(heap, words)?)),
        _ => Err(Malformed::NoContent.into()),
    }
}

// One value or more, to the end of the line.
fn values<'a>(heap: Global, words: &mut SplitWhitespace<'a>) -> Result<Vec<u32>, Untaken<'a>>
    ensures { IfErr result Unreadable }
{
    let mut values = Vec::new(heap);
    values.push(number(words, "value")?)?;
    for word in words {
        values.push(parsed(Some(word), "value")?)?;
    }
    Ok(values)
}

// The bytes that the next word writes.
fn bytes<'a>(heap: Global, words: &mut SplitWhitespace<'a>) -> Result<Vec<u8>, Untaken<'a>>
    ensures { IfErr result Unreadable }
{
    let word = words.next().ok_or(Malformed::NotBytes)?;
    let bytes = hex::bytes_written(heap, word)?;
    Ok(bytes.ok_or(Malformed::NotBytes)?)
}

fn jitter<'a>(words: &mut SplitWhitespace<'a>) -> Result<Entry, Malformed<'a>>
    ensures { (node of : ℕ) (by : ℤ) → ReadsNumbers (split_whitespace_rest words.old) result (split_whitespace_rest words.new) (entry.Jitter node of by) }
{
    let node = number(words, "jitter")?;
    let (of, by) = pair(words, "of", "by")?;
    Ok(Entry::Jitter { node, of, by })
}

fn drift<'a>(words: &mut SplitWhitespace<'a>) -> Result<Entry, Malformed<'a>>
    ensures { (node : ℕ) (by : ℤ) → ReadsNumbers (split_whitespace_rest words.old) result (split_whitespace_rest words.new) (entry.Drift node by) }
{
    let node = number(words, "drift")?;
    let by = named(words, "by")?;
    Ok(Entry::Drift { node, by })
}

fn value<'a>(words: &mut SplitWhitespace<'a>) -> Result<Entry, Malformed<'a>>
    ensures { (node next : ℕ) → ReadsNumbers (split_whitespace_rest words.old) result (split_whitespace_rest words.new) (entry.Value node next) }
{
    let node = number(words, "value")?;
    let next = named(words, "next")?;
    Ok(Entry::Value { node, next })
}

// The word that has to stand next.
fn keyword<'a>(words: &mut SplitWhitespace<'a>, word: &'static str) -> Result<(), Malformed<'a>>
    ensures { (others : List (List ℕ)) → HasWords (split_whitespace_rest words.old) (word.now ∷ others) → (result ≡ Ok tt) × HasWords (split_whitespace_rest words.new) others }
{
    if words.next() == Some(word) {
        Ok(())
    } else {
        Err(Malformed::Missing { word })
    }
}

// A number behind its word.
fn named<'a, N: Ranged>(
    words: &mut SplitWhitespace<'a>,
    word: &'static str,
) -> Result<N, Malformed<'a>>
where
    N::Err: Drop,
    ensures { (text : List ℕ) (n : N) (others : List (List ℕ)) → ReadsAs N.from_str_gives text n → HasWords (split_whitespace_rest words.old) (word.now ∷ text ∷ others)
        → (result ≡ Ok n) × HasWords (split_whitespace_rest words.new) others }
{
    keyword(words, word)?;
    number(words, word)
}

// Four numbers, each behind its word.
fn four<'a>(
    words: &mut SplitWhitespace<'a>,
    first: &'static str,
    second: &'static str,
    third: &'static str,
    fourth: &'static str,
) -> Result<(u64, u64, u64, u64), Malformed<'a>>
    ensures { (a b c d : ℕ) → (a < 2 ^ 64) × (b < 2 ^ 64) × (c < 2 ^ 64) × (d < 2 ^ 64) → HasWords (split_whitespace_rest words.old) (first.now ∷ decimal a ∷ second.now ∷ decimal b ∷ third.now ∷ decimal c ∷ fourth.now ∷ decimal d ∷ [])
        → (result ≡ Ok (a, b, c, d)) × HasWords (split_whitespace_rest words.new) [] }
{
    let (a, b) = pair(words, first, second)?;
    let (c, d) = pair(words, third, fourth)?;
    Ok((a, b, c, d))
}

// Two numbers, each behind its word.
fn pair<'a, A: Ranged + Drop, B: Ranged>(
    words: &mut SplitWhitespace<'a>,
    first: &'static str,
    second: &'static str,
) -> Result<(A, B), Malformed<'a>>
where
    A::Err: Drop,
    B::Err: Drop,
    ensures { (text more : List ℕ) (a : A) (b : B) (others : List (List ℕ)) → ReadsAs A.from_str_gives text a → ReadsAs B.from_str_gives more b
        → HasWords (split_whitespace_rest words.old) (first.now ∷ text ∷ second.now ∷ more ∷ others) → (result ≡ Ok (a, b)) × HasWords (split_whitespace_rest words.new) others }
{
    let a = named(words, first)?;
    let b = named(words, second)?;
    Ok((a, b))
}

// The number that the next word writes.
fn number<'a, N: Ranged>(
    words: &mut SplitWhitespace<'a>,
    after: &'static str,
) -> Result<N, Malformed<'a>>
where
    N::Err: Drop,
    ensures { (text : List ℕ) (n : N) (others : List (List ℕ)) → ReadsAs N.from_str_gives text n → HasWords (split_whitespace_rest words.old) (text ∷ others)
        → (result ≡ Ok n) × HasWords (split_whitespace_rest words.new) others }
{
    parsed(words.next(), after)
}

// The number that a word writes.
fn parsed<'a, N: Ranged>(word: Option<&'a str>, after: &'static str) -> Result<N, Malformed<'a>>
where
    N::Err: Drop,
    ensures { IfSome word.entry (λ text. (n : N) → ReadsAs N.from_str_gives text.now n → result ≡ Ok n) }
{
    word.and_then(|word| word.parse().ok())
        .ok_or(Malformed::NotANumber {
            after,
            range: N::RANGE,
        })
}
