//! Items of a capture that arrives in pieces.

ghost use Rattle.std.specs.Prelude.{◌≡◌, ◌≤◌, ◌<◌, ◌+◌, ◌-◌, ◌^◌, ◌↔◌, ◌++◌, ⊤, ℕ, List, [], length, drop, take, map, replicate, All, IsTrue, IfOk, IfErr};
ghost use Rattle.std.specs.Vec.{vec_capacity, vec_len};
ghost use Rattle.pcap_core.specs.Answer.{Refuses, TellsWhere, Verdict, lacks, faulty};
ghost use Rattle.pcap_core.specs.Errors.{IsMemory};
ghost use Rattle.pcap_items.specs.Format.{Format, IsLawful};
ghost use Rattle.pcap_items.specs.Pieces.{AfterEach, Came, HoldsItems, IsFedUpTo, IsOpening, Reaches, TakesFront, joined_pieces};
ghost use Rattle.pcap_items.specs.Waiting.{IsWaiting, error_with, progress_shown, progress_with, rest_shown, rest_with};

use crate::{Rest, rest_or_memory};
use pcap_core::{PcapError, ResultParsing};
use std::alloc::Global;

/// A parser for bytes that arrive in pieces. Its items own their bytes, since the bytes that it has used are dropped.
pub trait PieceParser: Drop {
    /// The form in which an item is kept.
    type Item: Drop;

    /// The setting with which a capture is opened.
    type Setting: Copy + Drop;

    ghost State: { Type 0 };

    ghost Value: { Type 0 };

    ghost Part: { Type 0 };

    ghost opens: { Self.Setting → List ℕ → Verdict State → Type 0 };

    ghost format: { Format State Value };

    ghost state: { Self → State };

    ghost part: { Value → Part };

    ghost view: { Self.Item → Part };

    ghost owned: { Self.Item → Type 0 };

    /// Parses the opening of a capture, which is before its items. Returns the parser after it, and what follows.
    fn open<'a>(
        alloc: Global,
        setting: Self::Setting,
        held: &'a [u8],
    ) -> ResultParsing<(&'a [u8], Self)>
        ensures { TellsWhere ⊤ (opens setting held.now) state result };

    /// Returns the item at the front of the held bytes, and what follows it. Only an item changes the parser's state.
    fn take<'a>(&mut self, alloc: Global, held: &'a [u8]) -> ResultParsing<(&'a [u8], Self::Item)>
        ensures takes { TakesFront format part view (state self.old) (state self.new) held.now result }
        ensures owned { IfOk result (λ x. owned x.1) };
}

/// How far a capture that arrives in pieces has been parsed.
#[derive(Drop)]
enum Progress<P> {
    /// The opening of the capture is truncated or refused, as the error says.
    Before(PcapError),
    /// The parser after the items so far, and the rest after them.
    Within(P, Rest),
}

/// The contents of all pieces of a capture.
#[derive(Drop)]
pub struct Pieces<P, T> {
    /// The parser after the opening of the capture and the items.
    pub parser: P,
    /// The items, in order.
    pub items: Vec<T>,
    /// For each piece, the number of whole items in the bytes up to its end.
    pub numbers: Vec<usize>,
    /// The number of bytes that were used, for the opening of the capture and for the items.
    pub used: usize,
    /// The rest after the last item.
    pub rest: Rest,
}

/// Feeds the pieces in order to a parser with this setting, and counts the items after each piece.
///
/// Returns the refusal of the capture's opening, or `IncompleteBuffer` if the opening is truncated. Returns `OutOfMemory` if
/// an allocation fails.
pub fn feed_pieces<P: PieceParser>(
    alloc: Global,
    setting: P::Setting,
    pieces: &[&[u8]],
) -> ResultParsing<Pieces<P, P::Item>>
    requires lawful { IsLawful P.format }
    requires opening { IsOpening (P.opens setting) }
    requires fit { length (joined_pieces pieces.now) < 2 ^ 64 }
    ensures fed { IfOk result
        (λ x. IsFedUpTo (P.opens setting) P.format P.part (P.state x.parser) (joined_pieces pieces.now) x.rest x.used (map P.view x.items.items)) }
    ensures numbers { IfOk result (λ x. AfterEach (HoldsItems (P.opens setting) P.format) [] pieces.now x.numbers.items) }
    ensures owned { IfOk result (λ x. All P.owned x.items.items) }
    ensures refused { IfErr result
        (Refuses ⊤ (λ n. P.opens setting (joined_pieces pieces.now) (lacks n)) (λ fault. P.opens setting (joined_pieces pieces.now) (faulty fault))) }
{
    let mut numbers = Vec::with_capacity(alloc, pieces.len())?;
    let mut held = Vec::new(alloc);
    let mut items = Vec::new(alloc);
    let mut progress = opened(alloc, setting, &mut held, &mut items)?;
    let mut missing = due(&progress);
    let mut total = 0;
    while numbers.len() < pieces.len() {
        let piece = pieces[numbers.len()];
        missing = feed_piece(
            alloc,
            setting,
            piece,
            missing,
            &mut progress,
            &mut held,
            &mut items,
        )?;
        numbers.push_reserved(items.len());
        let left = pieces.split_at(numbers.len()).1;
        let single;
        (held, numbers, single) = hold_single(held, numbers, left, missing, items.len())?;
        missing -= single;
        total += piece.len() + single;
    }
    let used = total - held.len();
    match shown(progress, missing, held.len()) {
        Progress::Before(error) => Err(error),
        Progress::Within(parser, rest) => Ok(Pieces {
            parser,
            items,
            numbers,
            used,
            rest,
        }),
    }
}

/// Returns whether the total length of the pieces fits in `usize`, as the calls on pieces require.
pub fn pieces_fit(pieces: &[&[u8]]) -> bool
    ensures { IsTrue result ↔ (length (joined_pieces pieces.now) < 2 ^ 64) }
{
    let mut total: usize = 0;
    for piece in pieces {
        match total.checked_add(piece.len()) {
            Some(sum) => total = sum,
            None => return false,
        }
    }
    true
}

// Appends a piece to the held bytes, and calls the parser once no byte is missing. Returns how many bytes are missing then.
fn feed_piece<P: PieceParser>(
    alloc: Global,
    setting: P::Setting,
    piece: &[u8],
    missing: usize,
    progress: &mut Progress<P>,
    held: &mut Vec<u8>,
    items: &mut Vec<P::Item>,
) -> ResultParsing<usize>
    requires lawful { IsLawful P.format }
    requires opening { IsOpening (P.opens setting) }
    ensures waiting { IfOk result (λ due. (s : List ℕ)
        → IsWaiting (P.opens setting) P.format P.part P.state s (progress_with progress.old missing) held.old.items (map P.view items.old.items)
        → IsWaiting (P.opens setting) P.format P.part P.state (s ++ piece.now) (progress_with progress.new due) held.new.items (map P.view items.new.items)) }
    ensures owned { IfOk result (λ _. All P.owned items.old.items → All P.owned items.new.items) }
    ensures memory { IfErr result IsMemory }
{
    hold(held, piece)?;
    if piece.len() < missing {
        return Ok(missing - piece.len());
    }
    asked(alloc, setting, progress, held, items)?;
    Ok(due(progress))
}

// Appends a piece to the held bytes. A single byte is pushed and not copied as a slice.
fn hold(held: &mut Vec<u8>, piece: &[u8]) -> ResultParsing<()>
    ensures held { IfOk result (λ _. held.new.items ≡ held.old.items ++ piece.now) }
    ensures memory { IfErr result IsMemory }
{
    if let [byte] = piece {
        held.push(*byte)?;
    } else {
        held.extend_from_slice(piece)?;
    }
    Ok(())
}

// Appends the leading pieces of one byte each that leave bytes missing, and `number` for each of them. Returns how many
// pieces it appended.
fn hold_single(
    held: Vec<u8>,
    numbers: Vec<usize>,
    pieces: &[&[u8]],
    missing: usize,
    number: usize,
) -> ResultParsing<(Vec<u8>, Vec<usize>, usize)>
    requires places { vec_len numbers + length pieces.now ≤ vec_capacity numbers }
    ensures held { IfOk result (λ x. x.0.items ≡ held.items ++ joined_pieces (take x.2 pieces.now)) }
    ensures numbers { IfOk result (λ x. x.1.items ≡ numbers.items ++ replicate x.2 number) }
    ensures places { IfOk result (λ x. (vec_len x.1 ≡ vec_len numbers + x.2) × (vec_capacity x.1 ≡ vec_capacity numbers)) }
    ensures single { IfOk result (λ x. All (λ piece. length piece.now ≡ 1) (take x.2 pieces.now)) }
    ensures within { IfOk result (λ x. x.2 ≤ length pieces.now) }
    ensures waiting { IfOk result (λ x. x.2 ≤ missing - 1) }
    ensures memory { IfErr result IsMemory }
{
    let most = missing.saturating_sub(1).min(pieces.len());
    if most == 0 || pieces[0].len() != 1 {
        return Ok((held, numbers, 0));
    }
    let mut held = held;
    held.reserve(most)?;
    Ok(push_single(held, numbers, pieces.split_at(most).0, number))
}

// Does the same for pieces for which there is room. Both vectors are passed by value, so that their lengths stay in
// registers.
#[inline(never)]
fn push_single(
    held: Vec<u8>,
    numbers: Vec<usize>,
    pieces: &[&[u8]],
    number: usize,
) -> (Vec<u8>, Vec<usize>, usize)
    requires room { vec_len held + length pieces.now ≤ vec_capacity held }
    requires places { vec_len numbers + length pieces.now ≤ vec_capacity numbers }
    ensures held { result.0.items ≡ held.items ++ joined_pieces (take result.2 pieces.now) }
    ensures numbers { result.1.items ≡ numbers.items ++ replicate result.2 number }
    ensures places { (vec_len result.1 ≡ vec_len numbers + result.2) × (vec_capacity result.1 ≡ vec_capacity numbers) }
    ensures single { All (λ piece. length piece.now ≡ 1) (take result.2 pieces.now) }
    ensures within { result.2 ≤ length pieces.now }
{
    let mut held = held;
    let mut numbers = numbers;
    let mut count = 0;
    while count < pieces.len() && pieces[count].len() == 1 {
        held.push_reserved(pieces[count][0]);
        numbers.push_reserved(number);
        count += 1;
    }
    (held, numbers, count)
}

// Returns how many bytes must arrive before the parser is called: as many as it reported missing, and after a refusal more
// than can arrive. So the parser is called at most three times for each item: after the previous item, at the head and at
// the end.
fn due<P>(progress: &Progress<P>) -> usize
    ensures { progress_with progress.now result ≡ progress.now }
{
    match progress {
        Progress::Before(error) => due_before(error),
        Progress::Within(_, rest) => due_within(rest),
    }
}

fn due_before(error: &PcapError) -> usize
    ensures { error_with error.now result ≡ error.now }
{
    match error {
        PcapError::IncompleteBuffer(n) => *n,
        _ => usize::MAX,
    }
}

fn due_within(rest: &Rest) -> usize
    ensures { rest_with rest.now result ≡ rest.now }
{
    match rest {
        Rest::Needs(n) => *n,
        _ => usize::MAX,
    }
}

// Returns the progress with `missing` bytes missing, if it reports missing bytes. A rest that needs bytes is clean if no
// byte is held.
fn shown<P>(progress: Progress<P>, missing: usize, held: usize) -> Progress<P>
    ensures { result ≡ progress_shown progress missing held }
{
    match progress {
        Progress::Before(error) => Progress::Before(lacking(error, missing)),
        Progress::Within(parser, rest) => Progress::Within(parser, rest_of(rest, missing, held)),
    }
}

fn lacking(error: PcapError, missing: usize) -> PcapError
    ensures { result ≡ error_with error missing }
{
    match error {
        PcapError::IncompleteBuffer(_) => PcapError::IncompleteBuffer(missing),
        error => error,
    }
}

fn rest_of(rest: Rest, missing: usize, held: usize) -> Rest
    ensures { result ≡ rest_shown rest missing held }
{
    match rest {
        Rest::Clean => Rest::Clean,
        Rest::Needs(_) => {
            if held == 0 {
                Rest::Clean
            } else {
                Rest::Needs(missing)
            }
        }
        Rest::Refused(error) => Rest::Refused(error),
    }
}

// Calls the parser on the held bytes.
fn asked<P: PieceParser>(
    alloc: Global,
    setting: P::Setting,
    progress: &mut Progress<P>,
    held: &mut Vec<u8>,
    items: &mut Vec<P::Item>,
) -> ResultParsing<()>
    requires lawful { IsLawful P.format }
    requires opening { IsOpening (P.opens setting) }
    ensures waiting { IfOk result (λ _. (s : List ℕ) → Came (P.opens setting) P.format P.part P.state s progress.old held.old.items (map P.view items.old.items)
        → IsWaiting (P.opens setting) P.format P.part P.state s progress.new held.new.items (map P.view items.new.items)) }
    ensures owned { IfOk result (λ _. All P.owned items.old.items → All P.owned items.new.items) }
    ensures memory { IfErr result IsMemory }
{
    match progress {
        Progress::Before(_) => *progress = opened(alloc, setting, held, items)?,
        Progress::Within(parser, _) => {
            let told = take_items(alloc, parser, held, items)?;
            if let Progress::Within(_, rest) = progress {
                *rest = told;
            }
        }
    }
    Ok(())
}

// Opens the capture and, if it opens, takes its items.
fn opened<P: PieceParser>(
    alloc: Global,
    setting: P::Setting,
    held: &mut Vec<u8>,
    items: &mut Vec<P::Item>,
) -> ResultParsing<Progress<P>>
    requires lawful { IsLawful P.format }
    requires opening { IsOpening (P.opens setting) }
    ensures waiting { IfOk result (λ new. map P.view items.old.items ≡ []
        → IsWaiting (P.opens setting) P.format P.part P.state held.old.items new held.new.items (map P.view items.new.items)) }
    ensures owned { IfOk result (λ _. All P.owned items.old.items → All P.owned items.new.items) }
    ensures memory { IfErr result IsMemory }
{
    match P::open(alloc, setting, held.as_slice()) {
        Ok((after, mut parser)) => {
            let taken = held.len() - after.len();
            drop_front(held, taken);
            let rest = take_items(alloc, &mut parser, held, items)?;
            Ok(Progress::Within(parser, rest))
        }
        Err(PcapError::OutOfMemory(e)) => Err(PcapError::OutOfMemory(e)),
        Err(error) => Ok(Progress::Before(error)),
    }
}

// Takes the items at the front of the held bytes, and drops their bytes. Returns the parser's answer about the bytes that
// are left, even if there are none.
fn take_items<P: PieceParser>(
    alloc: Global,
    parser: &mut P,
    held: &mut Vec<u8>,
    items: &mut Vec<P::Item>,
) -> ResultParsing<Rest>
    requires lawful { IsLawful P.format }
    ensures waiting { IfOk result (λ rest. (setting : P.Setting) (s : List ℕ)
        → Reaches (P.opens setting) P.format P.part (P.state parser.old) (map P.view items.old.items) s held.old.items
        → IsWaiting (P.opens setting) P.format P.part P.state s (Progress.Within parser.new rest) held.new.items (map P.view items.new.items)) }
    ensures owned { IfOk result (λ _. All P.owned items.old.items → All P.owned items.new.items) }
    ensures memory { IfErr result IsMemory }
{
    let mut at = 0;
    loop {
        match parser.take(alloc, held.as_slice().split_at(at).1) {
            Ok((after, item)) => {
                at = held.len() - after.len();
                items.push(item)?;
            }
            Err(error) => {
                drop_front(held, at);
                return Ok(rest_or_memory(error)?);
            }
        }
    }
}

// Drops the first `n` bytes.
fn drop_front(held: &mut Vec<u8>, n: usize)
    requires { n ≤ length held.old.items }
    ensures { held.new.items ≡ drop n held.old.items }
{
    if n == 0 {
        return;
    }
    let len = held.len();
    held.copy_within(n.., 0);
    held.truncate(len - n);
}
