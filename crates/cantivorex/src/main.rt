// The program: reads case.model and case.trace in the working folder and prints the verdict's line. A missing file
// counts as empty. A file that cannot be opened or read to its end gives no line: standard error says which, so that it
// can't pass for a shorter file.

#![tactic(auto)]

ghost use Rattle.std.specs.Prelude.{◌≡◌, ◌<◌, length, take, IfOk, IfSome};
ghost use Rattle.std.specs.Io.KnownBytes.{Consumes, IsAtEnd};
ghost use Rattle.cantivorex.specs.Loading.{IsPrefixLen};
ghost use Rattle.cantivorex.specs.Names.{name_of_kind, name_of_number};

use running::Verdict;
use std::io::{Cursor, ErrorKind, Read, Write};
use std::rt::Files;
use std::{fs, io, str};

// Fills the buffer from a reader until it is full or the reader ends, and returns how many bytes that took: they are
// the reader's next, and with fewer than the buffer has room for none is left. (std's `read_exact` says nothing of how
// many bytes a reader had that ended early, and its `read_to_end` takes heap.)
fn fill<R: Read>(reader: &mut R, buffer: &mut [u8]) -> io::Result<usize>
    ensures within { IfOk result (λ n. IsPrefixLen n buffer.new) }
    ensures bytes { IfOk result (λ n.
        Consumes (R.remaining reader.old) (R.remaining reader.new) (take n buffer.new)) }
    ensures end { IfOk result (λ n. n < length buffer.new → IsAtEnd (R.remaining reader.new)) }
{
    let mut at = 0;
    while at < buffer.len() {
        let n = reader.read(&mut buffer[at..])?;
        if n == 0 {
            return Ok(at);
        }
        at += n;
    }
    Ok(at)
}

// Reads the file into the buffer. A missing file counts as empty.
fn read<R: Files>(rt: &R, path: &str, buffer: &mut [u8]) -> io::Result<usize>
    ensures { IfOk result (λ n. IsPrefixLen n buffer.new) }
{
    match fs::open(rt, path) {
        Ok(mut file) => fill(&mut file, buffer),
        Err(e) if e.kind() == ErrorKind::NotFound => Ok(0),
        Err(e) => Err(e),
    }
}

// Reads the file into the buffer, or says on standard error why it can't.
fn load<R: Files + Eprint>(rt: &R, path: &str, buffer: &mut [u8]) -> Option<usize>
    ensures { IfSome result (λ n. IsPrefixLen n buffer.new) }
{
    read(rt, path, buffer).map_err(|e| tell(rt, path, e)).ok()
}

// Says on standard error what failed, and why: the system's words for it, without the number that std puts behind them.
fn tell(rt: &impl Eprint, what: &str, error: io::Error) {
    let mut text = Cursor::new([0u8; 128]);
    let _ = write!(text, "{error}");
    let whole = written(&text);
    let reason = whole
        .split_once(" (os error ")
        .map_or(whole, |(words, _)| words);
    let _ = eprintln!(rt; "{what}: {reason}");
}

// The text that was written into a buffer.
fn written(text: &Cursor<[u8; 128]>) -> &str {
    let size = text.position().min(128) as usize;
    str::from_utf8(&text.get_ref()[..size]).unwrap_or("")
}

// A word of the line and the number after it.
fn print_value(rt: &impl Print, word: &str, n: usize) -> io::Result<()> {
    rt.print(word)?;
    rt.print(n)
}

// The verdict's name in document 01's table, with those of document 02.
#[tactic(auto, unfolding(crate::specs::Names::names, crate::specs::Names::name_of_number))]
fn name_of(number: u8) -> &'static str
    ensures { result.now ≡ name_of_number number }
{
    match number {
        0 => "ATTACK",
        1 => "ROOM",
        2 => "LONG",
        3 => "VERSION",
        4 => "SHAPE",
        5 => "COUNT",
        6 => "FACT",
        7 => "ORDER",
        9 => "NAME",
        10 => "BLOCKED",
        11 => "NOATTACK",
        12 => "BADNAME",
        13 => "USED",
        17 => "FORMULA",
        _ => "",
    }
}

// The kind of the unmet condition, `none` where there is no value.
#[tactic(auto, unfolding(crate::specs::Names::name_of_kind))]
fn kind_name(kind: u8) -> &'static str
    ensures { result.now ≡ name_of_kind kind }
{
    match kind {
        1 => "positive",
        2 => "negative",
        _ => "none",
    }
}

// A word and the number after it, or `none` where there is no value.
fn print_some(rt: &impl Print, word: &str, n: usize) -> io::Result<()> {
    rt.print(word)?;
    // 65535 stands for no value: a verdict's values are the numbers that C is handed.
    if n == 65535 {
        rt.print("none")
    } else {
        rt.print(n)
    }
}

// The verdict's line.
fn print_line(rt: &impl Print, v: Verdict) -> io::Result<()> {
    rt.print(name_of(v.number))?;
    print_value(rt, " step ", v.step)?;
    print_some(rt, " fact ", v.fact)?;
    print_value(rt, " rounds ", v.rounds)?;
    print_value(rt, " held ", v.held)?;
    rt.print(" kind ")?;
    rt.print(kind_name(v.kind))?;
    print_some(rt, " round ", v.round)?;
    rt.print("\n")
}

// A file's buffer has one byte more than its bound, so that a file over the bound is seen to be over it. The index has
// room for every model: a body place takes 2 of its bytes. There is no heap: each buffer is cut to what was read.
fn main(rt: HostRuntime) {
    let mut model = [0u8; 65537];
    let mut trace = [0u8; 4097];
    let m = load(&rt, "case.model", &mut model);
    let t = load(&rt, "case.trace", &mut trace);
    let (Some(m), Some(t)) = (m, t) else {
        return;
    };
    let mut state = [0u8; 512];
    let mut table = [0u16; 4096];
    let mut names = [0u8; 128];
    let mut index = [0u16; 32768];
    let verdict = checking::check_indexed(
        &model[..m],
        &trace[..t],
        &mut state,
        &mut table,
        &mut names,
        &mut index,
    );
    if let Err(e) = print_line(&rt, verdict) {
        tell(&rt, "the verdict's line", e);
    }
}
