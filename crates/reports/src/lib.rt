// The report of a run: the answer to each event, from a new state under a policy, as text; and printed, for two files.
#![tactic(auto)]

ghost use Rattle.std.specs.Prelude.{IfOk, ◌≡◌, [], ◌++◌, ◌+◌, ◌*◌, ◌<◌, ◌≤◌, length};
ghost use Rattle.device.specs.Answers.{refusing};
ghost use Rattle.model.specs.Calls.{answer_size};
ghost use Rattle.reports.specs.Text.{ascii, line, lines, closing, report_text};
ghost use Rattle.reports.specs.Text.{most_events, made, text_call};
ghost use Rattle.reports.specs.Steps.{room_for, TextOfFiles, Printed, Wrote};

use arrayvec::ArrayString;
use device::{Refusal, Response};
use monitor::ANSWER_SIZE;
use std::fs;
use std::io::{Read, Write};
use std::rt::Files;

const MOST_EVENTS: usize = 2000;

// A line has an index of at most four digits, two numbers of at most three, and a byte behind each.
const LINE_SIZE: usize = 13;

// A line for each event, and the last line.
pub const TEXT_SIZE: usize = LINE_SIZE * MOST_EVENTS + 9;

// What is read of each file, at most: a byte more than is taken, so that a longer one is seen to be longer.
const POLICY_READ: usize = checks::POLICY_SIZE + 1;

const EVENTS_READ: usize = events::EVENT_SIZE * MOST_EVENTS + 1;

type Line = ArrayString<LINE_SIZE>;

type Text = ArrayString<TEXT_SIZE>;

// ---- the text: by `push_str`, which appends all it is given; a `write!` may fail, and no clause says when

#[tactic(auto, using(crate::proofs::Decimal::four_digits))]
fn line(index: usize, number: u8, detail: u8) -> Line
    requires { index < 10000 }
    ensures { result.bytes ≡ line index number detail }
{
    let mut digits = itoa::Buffer::new();
    let mut line = Line::new();
    line.push_str(digits.format(index));
    line.push_str(" ");
    line.push_str(digits.format(number));
    line.push_str(" ");
    line.push_str(digits.format(detail));
    line.push_str("\n");
    line
}

#[tactic(auto, using(crate::proofs::Decimal::four_digits))]
fn closing(word: &str, number: usize) -> Line
    requires { (length word.now ≤ 8) × (number < 10000) }
    ensures bytes { result.bytes ≡ closing word.now number }
    ensures room { length result.bytes ≤ length word.now + 5 }
{
    let mut closing = Line::new();
    closing.push_str(word);
    closing.push_str(itoa::Buffer::new().format(number));
    closing.push_str("\n");
    closing
}

// The lines of the events that are counted, and the last line, which has the count. An empty text is lent, here and below, and
// not made: a value of its size would be copied at each return.
#[tactic(auto, using(crate::proofs::Texts::counted_pairs), unfolding(crate::specs::Text::lines, crate::specs::Text::ascii))]
fn listing(text: &mut Text, count: usize, answers: &[u8])
    requires empty { text.old.bytes ≡ [] }
    requires counted { (count ≤ most_events) × (answer_size * count ≤ length answers.now) }
    ensures { text.new.bytes ≡ lines count answers.now ++ closing (ascii "end ") count }
{
    let (answers, _) = answers[..ANSWER_SIZE * count].as_chunks::<ANSWER_SIZE>();
    for (index, [number, detail]) in answers.iter().enumerate() {
        text.push_str(&line(index, *number, *detail));
    }
    text.push_str(&closing("end ", count));
}

#[tactic(auto, unfolding(crate::specs::Text::ascii))]
fn refused(text: &mut Text, refusal: Refusal)
    requires { text.old.bytes ≡ [] }
    ensures { text.new.bytes ≡ closing (ascii "refused ") (refusing refusal).number }
{
    text.push_str(&closing("refused ", Response::from(refusal).number as usize));
}

// How many bytes of answers the events are lent: none where they are too many, so that the run refuses them.
#[tactic(auto, unfolding(crate::specs::Steps::room_for))]
fn room_for(count: usize) -> usize
    ensures value { result ≡ room_for count }
    ensures bound { result ≤ answer_size * most_events }
{
    if MOST_EVENTS < count {
        return 0;
    }
    ANSWER_SIZE * count
}

fn report(text: &mut Text, policy: &[u8], events: &[u8])
    requires { text.old.bytes ≡ [] }
    ensures { text.new.bytes ≡ report_text policy.now events.now }
{
    let mut answers = [0u8; ANSWER_SIZE * MOST_EVENTS];
    let answers = &mut answers[..room_for(events.len() / events::EVENT_SIZE)];
    let mut state = [0u8; store::STATE_SIZE];
    match monitor::run(policy, &mut state, events, answers) {
        Ok(count) => listing(text, count, answers),
        Err(refusal) => refused(text, refusal),
    }
}

// The text for the bytes of a policy and of events, at the start of what is lent, and its size: none where less than TEXT_SIZE
// bytes are lent. A number and no Option: the clause of this public function, `text_call`, speaks of 0.
#[tactic(auto, using(crate::proofs::Texts::text_small, crate::proofs::Texts::text_placed))]
pub fn text(policy: &[u8], events: &[u8], lent: &mut [u8]) -> usize
    ensures { made result lent.new ≡ text_call policy.now events.now lent.old }
{
    if lent.len() < TEXT_SIZE {
        return 0;
    }
    let mut text = Text::new();
    report(&mut text, policy, events);
    let size = text.len();
    lent[..size].copy_from_slice(text.as_bytes());
    size
}

// ---- the files: what is read of them, and that the text is written, is all that no contract says

// A path that is no text opens no file, as one that is not there.
fn open<R: Files>(rt: &R, path: &[u8]) -> Option<R::File> {
    fs::open(rt, str::from_utf8(path).ok()?).ok()
}

fn read_full<F: Read>(file: &mut F, bytes: &mut [u8]) -> usize
    ensures { result ≤ length bytes.new }
{
    let mut size: usize = 0;
    while size < bytes.len() {
        match file.read(&mut bytes[size..]) {
            Ok(0) => break,
            Ok(n) => size += n,
            Err(_) => break,
        }
    }
    size
}

// What the file has, as far as there is room for it: nothing where it does not open, and what came before a read that fails. Each
// read is lent all the room that is left: how much a file gives may hang on how much it is asked for.
fn read_file<'a, R: Files>(rt: &R, path: &[u8], room: &'a mut [u8]) -> &'a [u8]
    ensures { length result.now ≤ length room.old }
{
    let size = match open(rt, path) {
        Some(mut file) => read_full(&mut file, room),
        None => 0,
    };
    &room[..size]
}

// A longer file has the same text as the part of it that is read.
fn report_of_files<R: Files>(text: &mut Text, rt: &R, policy_path: &[u8], events_path: &[u8])
    requires { text.old.bytes ≡ [] }
    ensures { TextOfFiles text.new.bytes }
{
    let mut policy = [0u8; POLICY_READ];
    let policy = read_file(rt, policy_path, &mut policy);
    let mut events = [0u8; EVENTS_READ];
    let events = read_file(rt, events_path, &mut events);
    report(text, policy, events);
}

// Prints the report on two files, of which one that does not open has length 0, and tells how long it is. The only error is a
// write that fails; what was written before it stays.
#[tactic(auto, using(crate::proofs::Texts::printed, crate::proofs::Texts::wrote))]
pub fn print<R: Files, W: Write>(
    rt: &R,
    out: &mut W,
    policy_path: &[u8],
    events_path: &[u8],
) -> std::io::Result<usize>
    ensures printed { IfOk result (λ size. Printed size) }
    ensures wrote { IfOk result (λ size. Wrote (W.contents out.old) (W.contents out.new) size) }
{
    let mut text = Text::new();
    report_of_files(&mut text, rt, policy_path, events_path);
    out.write_all(text.as_bytes())?;
    Ok(text.len())
}
