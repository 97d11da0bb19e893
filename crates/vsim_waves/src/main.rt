//! Makes a VCD of a listing, for waveform viewers:
//! `vsim_waves [--deltas | --map FILE] < LISTING > FILE.vcd`. A net has one value at each time, that
//! of the last delta cycle; with `--deltas` each delta cycle has a time of its own, a femtosecond
//! after the one before it, which makes glitches visible. With `--map` the variables are those of
//! the source of a netlist, and with `--svg` the waves are a picture.
#![tactic(auto)]

mod draft;
mod hierarchy;
mod options;
mod vectors;
mod waves;

use crate::options::{Options, Request, read_request};
use crate::vectors::Vectors;
use crate::waves::Waves;
use anyhow::{Context, Result, bail};
use memchr::memchr_iter;
use std::alloc::Global;
use std::io::{self, BufWriter, Read, Write, writer};
use std::process::ExitCode;
use std::{env, fs};
use vsim_waves_listing::{Fault, Line, LineReader, Moment, Pieces, SourceMap, read_map};
use vsim_waves_picture::{Recording, Window};

/// The text of `--version`. The script `build` fills in the sources and the toolchain in its copy.
const VERSION: &str = "vsim_waves 1.0.0, sources unknown, toolchain unknown";

const USAGE: &str = "usage: vsim_waves [OPTIONS] < LISTING > FILE.vcd";

/// The text of `--help`.
const HELP: &str = "Converts a listing of vsim to VCD, for waveform viewers, or to a picture.

Usage: vsim_waves [OPTIONS] < LISTING > FILE.vcd

Options:
      --deltas        Give each delta cycle its own time, a femtosecond after the one before
      --map <FILE>    Show the variables of a netlist's source, with the map from vsim_netlist
      --scope <NAME>  Name the outermost scope, as after the entity: else top, or as the map says
      --partial       Take a listing without its last line, of a run that was cut short
      --svg           Draw a picture of the waves, an SVG, in place of a VCD
      --from <TIME>   Begin the picture at this time, as 10ns; without a unit it is in fs
      --to <TIME>     End the picture at this time
      --nets <LIST>   Draw these nets alone, as 'q,u1.*'
  -h, --help          Print help
  -V, --version       Print version

Waves:
  A net has one value at each time, that of the last delta cycle; with --deltas
  glitches are visible. The instances of the design are the scopes. Times are in
  femtoseconds. With --map the scopes, names and vectors are those of the source
  from which Yosys made the netlist.

Status:
  0  the waves are written, or help or the version was requested
  1  the listing or map is damaged, a last line is missing, a picture is too large, or
     reading or writing failed
  2  the command line is refused

Example:
  vsim --top t < pulse.vhd | vsim_waves --scope t > pulse.vcd";

/// The waves of a listing: those of its nets, or of the variables of a source, or a picture.
#[derive(Drop)]
enum View<'a> {
    Nets(Waves),
    Source(Box<Vectors>),
    Picture(Box<Recording<'a>>),
}

impl View<'_> {
    /// Takes a change; `false` if it can't be at this place.
    fn change<W: Write>(
        &mut self,
        alloc: Global,
        out: &mut W,
        at: Moment,
        name: &str,
        value: u8,
    ) -> Result<bool, Fault> {
        match self {
            View::Nets(waves) => Ok(waves.change(alloc, out, at, name.as_bytes(), value)?),
            View::Source(vectors) => Ok(vectors.change(out, at, name, value)?),
            View::Picture(recording) => recording.change(at, name, value),
        }
    }

    /// Takes the last line; `false` if there was one before.
    fn end<W: Write>(&mut self, out: &mut W) -> Result<bool, Fault> {
        match self {
            View::Nets(waves) => Ok(waves.end(out)?),
            View::Source(vectors) => Ok(vectors.end(out)?),
            View::Picture(recording) => recording.end(),
        }
    }

    /// Writes what was put together so far.
    fn flush<W: Write>(&mut self, out: &mut W) -> io::Result<()> {
        match self {
            View::Nets(waves) => waves.flush(out),
            View::Source(_) | View::Picture(_) => Ok(()),
        }
    }

    /// Draws what was taken, if it is a picture.
    fn draw<W: Write>(&self, out: &mut W) -> io::Result<()> {
        match self {
            View::Nets(_) | View::Source(_) => Ok(()),
            View::Picture(recording) => recording.write(out),
        }
    }

    /// Whether the last line was read.
    fn is_done(&self) -> bool {
        match self {
            View::Nets(waves) => waves.is_done(),
            View::Source(vectors) => vectors.is_done(),
            View::Picture(recording) => recording.is_done(),
        }
    }
}

/// Takes a line of a listing, and writes all changes before its time; `false` if it is none.
fn take_line<W: Write>(
    alloc: Global,
    view: &mut View<'_>,
    out: &mut W,
    line: Option<Line<'_>>,
) -> Result<bool, Fault> {
    match line {
        None => Ok(false),
        Some(Line::Done) => view.end(out),
        Some(Line::Change { at, name, value }) => match str::from_utf8(name) {
            Ok(name) => view.change(alloc, out, at, name, value),
            Err(_) => Ok(false),
        },
    }
}

/// A fault of reading as an error of the program.
fn error_of(fault: Fault) -> anyhow::Error {
    match fault {
        Fault::Stream(fault) => anyhow::Error::from(fault),
        Fault::Refused(text) => anyhow::Error::msg(text),
    }
}

/// Takes a line of a listing, or ends with an error if it is none.
fn take<W: Write>(
    alloc: Global,
    view: &mut View<'_>,
    out: &mut W,
    line: Option<Line<'_>>,
) -> Result<()> {
    match take_line(alloc, view, out, line) {
        Ok(true) => Ok(()),
        Ok(false) => bail!("this is not a line of a listing, or not in its place"),
        Err(fault) => Err(error_of(fault)),
    }
}

/// Goes on to the next line; `false` at the end. A listing that may be cut short ends before a line
/// that lacks its line feed.
fn next_line<R: Read>(input: &mut Pieces<R>, is_partial: bool) -> Result<bool> {
    if input.see_line() {
        return Ok(true);
    }
    match input.next_line() {
        Ok(is_there) => Ok(is_there && (input.is_ended() || !is_partial)),
        Err(fault) => Err(error_of(fault)),
    }
}

/// Takes the change of a line, unless something is to be written or refused first; `false` if it was
/// not taken.
#[inline(always)]
fn take_known(alloc: Global, waves: &mut Waves, line: Option<Line<'_>>) -> bool {
    match line {
        Some(Line::Change { at, name, value }) => waves.take(alloc, at, name, value),
        Some(Line::Done) | None => false,
    }
}

/// Takes lines of a text, up to one that is not taken. Returns the length and the number of those
/// that were.
fn take_text(
    alloc: Global,
    waves: &mut Waves,
    lines: &mut LineReader,
    text: &[u8],
) -> (usize, usize) {
    let (mut length, mut count) = (0usize, 0usize);
    for end in memchr_iter(b'\n', text) {
        let line = text.get(length..end).unwrap_or(&[]);
        if !take_known(alloc, waves, lines.read(line)) {
            break;
        }
        length = end.saturating_add(1);
        count = count.saturating_add(1);
    }
    (length, count)
}

/// Takes the next lines that are in the block of the stream, up to one that is not taken.
fn take_block<R: Read>(
    alloc: Global,
    view: &mut View<'_>,
    input: &mut Pieces<R>,
    lines: &mut LineReader,
) {
    if let View::Nets(waves) = view {
        let (length, count) = take_text(alloc, waves, lines, input.rest());
        input.pass(length, count);
    }
}

/// Writes the waves of a listing, line by line.
fn write_lines<R: Read, W: Write>(
    alloc: Global,
    input: &mut Pieces<R>,
    out: &mut W,
    view: &mut View<'_>,
    is_partial: bool,
) -> Result<()> {
    let mut lines = LineReader::new();
    for _ in 0..u64::MAX {
        take_block(alloc, view, input, &mut lines);
        if !next_line(input, is_partial)? {
            break;
        }
        let number = input.lines();
        let line = lines.read(input.piece());
        take(alloc, view, out, line).context(format_args!("line {number}"))?;
    }
    Ok(())
}

/// Takes the end of a listing, which has to have its last line unless it may be cut short.
fn finish<W: Write>(view: &mut View<'_>, out: &mut W, is_partial: bool) -> Result<()> {
    if view.is_done() {
        return Ok(());
    }
    if !is_partial {
        bail!("the listing has no last line, as 'done 3 3'");
    }
    match view.end(out) {
        Ok(_is_first) => Ok(()),
        Err(fault) => Err(error_of(fault)),
    }
}

/// A writer, and whether it failed because its reader is gone, as with `head`.
#[derive(Drop)]
struct Watched<W> {
    out: W,
    is_unread: bool,
}

impl<W: Write> Write for Watched<W> {
    fn write(&mut self, buf: &[u8]) -> io::Result<usize> {
        let written = self.out.write(buf);
        if let Err(fault) = &written {
            self.is_unread = self.is_unread || fault.kind() == io::ErrorKind::BrokenPipe;
        }
        written
    }

    fn flush(&mut self) -> io::Result<()> {
        self.out.flush()
    }
}

/// The view that a listing is turned into: that of the map in a file where there is one.
fn make_view<'a>(rt: &HostRuntime, options: &Options<'a>) -> Result<View<'a>> {
    let Some(path) = options.map else {
        return view_of_nets(rt.alloc(), options);
    };
    let text = fs::read_to_string(rt, path).context(format_args!("{path}"))?;
    read_view(rt.alloc(), text.as_str(), options).context(format_args!("{path}"))
}

/// A picture of which nothing was read.
fn make_recording<'a>(alloc: Global, options: &Options<'a>) -> Recording<'a> {
    let (from, to, nets) = (options.from.unwrap_or(0), options.to, options.nets);
    Recording::new(alloc, Window { from, to, nets })
}

/// The view that a listing is turned into without a map.
fn view_of_nets<'a>(alloc: Global, options: &Options<'a>) -> Result<View<'a>> {
    if options.is_drawn {
        let recording = make_recording(alloc, options);
        return Ok(View::Picture(Box::new(alloc, recording)?));
    }
    let scope = String::from_str(alloc, options.scope.unwrap_or("top"))?;
    Ok(View::Nets(Waves::new(alloc, options.has_deltas, scope)?))
}

/// The view that a listing is turned into by a map.
fn read_view<'a>(alloc: Global, text: &str, options: &Options<'a>) -> Result<View<'a>> {
    match read_map(alloc, text) {
        Ok(map) if options.is_drawn => picture_of(alloc, &map, options),
        Ok(map) => view_of(alloc, map, options.scope),
        Err((line, fault)) => Err(error_of(fault).context(format_args!("line {line}"))),
    }
}

/// The picture of a map.
fn picture_of<'a>(alloc: Global, map: &SourceMap, options: &Options<'a>) -> Result<View<'a>> {
    let mut recording = make_recording(alloc, options);
    match recording.take_map(map) {
        Ok(()) => Ok(View::Picture(Box::new(alloc, recording)?)),
        Err(fault) => Err(error_of(fault)),
    }
}

/// The VCD of a map.
fn view_of<'a>(alloc: Global, map: SourceMap, scope: Option<&str>) -> Result<View<'a>> {
    let mut vectors = Vectors::new(alloc, map)?;
    if let Some(scope) = scope {
        vectors.rename(scope)?;
    }
    Ok(View::Source(Box::new(alloc, vectors)?))
}

/// Writes the waves of the listing on standard input.
fn write_input<W: Write>(
    rt: &HostRuntime,
    view: &mut View<'_>,
    out: &mut W,
    is_partial: bool,
) -> Result<()> {
    let mut input = Pieces::new(rt.alloc(), rt.reader())?;
    write_lines(rt.alloc(), &mut input, out, view, is_partial)?;
    finish(view, out, is_partial)
}

/// Writes the waves of the listing on standard input, up to a line that is refused.
fn write_all<W: Write>(
    rt: &HostRuntime,
    view: &mut View<'_>,
    out: &mut W,
    is_partial: bool,
) -> Result<()> {
    let made = write_input(rt, view, out, is_partial);
    let flushed = view.flush(out);
    made?;
    flushed.context("writing")
}

/// Writes the waves of the listing on standard input, or the picture.
fn write_view<W: Write>(
    rt: &HostRuntime,
    view: &mut View<'_>,
    out: &mut W,
    is_partial: bool,
) -> Result<()> {
    write_all(rt, view, out, is_partial)?;
    view.draw(out).context("writing")
}

/// Makes a VCD of the listing on standard input.
fn convert<W: Write>(
    rt: &HostRuntime,
    view: &mut View<'_>,
    out: &mut W,
    is_partial: bool,
) -> Result<()> {
    let mut out = BufWriter::new(rt.alloc(), out)?;
    write_view(rt, view, &mut out, is_partial)?;
    out.flush().context("writing")
}

/// The same, for these waves.
fn convert_with<W: Write>(
    rt: &HostRuntime,
    view: View<'_>,
    out: &mut W,
    is_partial: bool,
) -> Result<()> {
    let mut view = view;
    convert(rt, &mut view, out, is_partial)
}

/// Makes a VCD on standard output of the listing on standard input, and returns the exit status.
fn answer_listing(rt: &HostRuntime, options: &Options<'_>) -> Result<ExitCode> {
    let mut out = Watched {
        out: writer(rt),
        is_unread: false,
    };
    let made = match make_view(rt, options) {
        Ok(view) => convert_with(rt, view, &mut out, options.is_partial),
        Err(fault) => Err(fault),
    };
    let Err(fault) = made else {
        return Ok(ExitCode::SUCCESS);
    };
    if !out.is_unread {
        eprintln!(rt; "vsim_waves: {fault:#}")?;
    }
    Ok(ExitCode::FAILURE)
}

/// Prints a text on standard output.
fn tell(rt: &HostRuntime, text: &str) -> Result<ExitCode> {
    rt.println(text)?;
    Ok(ExitCode::SUCCESS)
}

/// Carries out the words after the program's name.
fn answer(rt: &HostRuntime, words: &[String]) -> Result<ExitCode> {
    match read_request(words) {
        Request::Waves(options) => answer_listing(rt, &options),
        Request::Help => tell(rt, HELP),
        Request::Version => tell(rt, VERSION),
        Request::Refused => {
            rt.eprintln(USAGE)?;
            Ok(ExitCode::from(2))
        }
    }
}

fn main(rt: HostRuntime) -> Result<ExitCode> {
    let words: Vec<String> = env::args(&rt)?.skip(1).collect(rt.alloc())?;
    answer(&rt, words.as_slice())
}
