//! The command line.
ghost use Rattle.std.specs.Prelude.{◌≡◌, ◌<◌, ◌≤◌, IfOk, IfSome, IsTrue, is_some, length, true, unwrap_or};
ghost use Rattle.clap.specs.Words.{found_of};
ghost use Rattle.command_line.specs.Commands.{DividesAlone, HasFiles, InRange, IsPartCount, IsWorkerCount};
ghost use Rattle.command_line.specs.Numbers.{HasBounds, HasLimits, HasNumbers, IsNumber};
ghost use Rattle.model.specs.Limits.{LimitsFit};

use clap::error::ErrorKind;
use clap::{Arg, ArgAction, ArgMatches, Command as Line, Error as ClapError, value_parser};
use model::journals::Limits;
use std::alloc::{AllocError, AllocFailed, Global};
use thiserror::Error;

/// What the program is to do.
#[derive(Drop)]
pub enum Command {
    /// Runs the program of these files.
    Run(RunOptions),
    /// Debugs the program of these files.
    Debug(DebugOptions),
    /// Explores every schedule of the program of these files.
    Explore(ExploreOptions),
    /// Writes the class file of a text.
    Assemble(AssembleOptions),
    /// Writes the text of this class file.
    Disassemble(String),
    /// Makes a run again from its journal.
    Replay(ReplayOptions),
    /// Writes a journal of either version in version 2.
    Upgrade(UpgradeOptions),
    /// Says what a code or a status means, or lists all of them.
    Explain(Option<String>),
}

/// What `jvm asm` reads and writes.
#[derive(Drop)]
pub struct AssembleOptions {
    /// the text
    pub file: String,
    /// the class file
    pub out: String,
}

/// How many cells of each size a world's heap has, and its limits.
#[derive(Clone, Copy)]
pub struct WorldOptions {
    pub small: u32,
    pub medium: u32,
    pub large: u32,
    pub steps: u32,
    pub output: u32,
}

/// How `jvm run` runs.
#[derive(Drop)]
pub struct RunOptions {
    pub world: WorldOptions,
    /// how many turns the collector makes after each turn of a thread
    pub gc: u32,
    /// how many threads carry turns; where there are several, the collector is one of its own
    pub carriers: u8,
    /// where the journal is written, if anywhere
    pub journal: Option<String>,
    /// whether the run is compared with the ideal run, turn by turn
    pub check: bool,
    pub files: Vec<String>,
}

/// What `jvm debug` debugs.
#[derive(Drop)]
pub struct DebugOptions {
    pub world: WorldOptions,
    pub files: Vec<String>,
}

/// What `jvm explore` explores, and how far.
#[derive(Drop)]
pub struct ExploreOptions {
    /// how many states may be kept
    pub states: u32,
    /// how many turns may lead to a state, and how many bytes may be printed
    pub limits: Limits,
    /// whether each turn that asks for a cell is also made as if none were free
    pub no_room: bool,
    /// the folder into which witnesses are written, if anywhere; and parts
    pub witnesses: Option<String>,
    /// the journal of a run, or its turns, after which the exploration begins, if any
    pub from: Option<String>,
    /// into how many parts the exploration is divided at most, if it is divided and not made
    pub split: Option<u32>,
    /// how many threads explore
    pub workers: u8,
    pub files: Vec<String>,
}

/// What `jvm replay` reads.
#[derive(Drop)]
pub struct ReplayOptions {
    pub journal: String,
    pub files: Vec<String>,
}

/// What `jvm upgrade` reads and writes.
#[derive(Drop)]
pub struct UpgradeOptions {
    /// a journal of either version
    pub journal: String,
    /// the journal in version 2
    pub out: String,
}

/// Why a command line stands for no command.
#[derive(Debug, Drop, Error)]
pub enum LineError {
    /// There is no memory for it.
    #[error("memory")]
    Memory,
    /// A file name is missing, a number is out of its range, or several workers are to divide an exploration.
    #[error("options")]
    Options,
    /// The words are no command, or ask for help or the version: what clap says, and whether it goes to standard error.
    #[error("{text}")]
    Words { text: String, mistake: bool },
}

impl From<AllocError> for LineError {
    fn from(_error: AllocError) -> LineError {
        LineError::Memory
    }
}

impl<T: Drop> From<AllocFailed<T>> for LineError {
    fn from(_error: AllocFailed<T>) -> LineError {
        LineError::Memory
    }
}

/// An option of a number.
fn number<'a>(
    alloc: Global,
    name: &'a str,
    default: &'a str,
    help: &'a str,
) -> Result<Arg<'a>, AllocError> {
    Ok(
        Arg::new(alloc, name)
            .long(name)
            .value_name("N")
            .value_parser(value_parser!(u32))
            .default_value(default)
            .help(help),
    )
}

/// The file that a command must name at this place.
fn file<'a>(alloc: Global, name: &'a str, help: &'a str) -> Arg<'a> {
    Arg::new(alloc, name).required(true).help(help)
}

/// The files of a program.
fn sources<'a>(alloc: Global) -> Arg<'a> {
    Arg::new(alloc, "FILE")
        .action(ArgAction::Append)
        .num_args(1..)
        .help("Jasmin texts and class files, one class each; the first has main")
}

/// The option of a journal's path.
fn journal_option<'a>(alloc: Global) -> Arg<'a> {
    Arg::new(alloc, "journal")
        .long("journal")
        .value_name("PATH")
        .help("writes the journal of the run, which `jvm replay` takes")
}

/// The option of a run that is compared with the ideal run.
fn check_option<'a>(alloc: Global) -> Arg<'a> {
    Arg::new(alloc, "check")
        .long("check")
        .action(ArgAction::SetTrue)
        .help(
            "makes each turn once more beside a plain run on whose heap nothing is freed, and compares all that is seen; the time of a turn grows with the heap",
        )
}

/// The option of turns that find no cell.
fn no_room_option<'a>(alloc: Global) -> Arg<'a> {
    Arg::new(alloc, "no-room")
        .long("no-room")
        .action(ArgAction::SetTrue)
        .help(
            "makes each turn that asks for a cell also as if none were free, so that the outcomes are those on every heap",
        )
}

/// The option of a folder for witnesses.
fn witnesses_option<'a>(alloc: Global) -> Arg<'a> {
    Arg::new(alloc, "witnesses")
        .long("witnesses")
        .value_name("DIR")
        .help(
            "writes for outcome N a journal that leads to it, DIR/N.journal; where a cell has to be missing, its turns, DIR/N.turns",
        )
}

/// The option of a run after which an exploration begins.
fn from_option<'a>(alloc: Global) -> Arg<'a> {
    Arg::new(alloc, "from")
        .long("from")
        .value_name("JOURNAL")
        .help(
            "explores what can follow the run of this journal, within its limits; also takes turns, as --witnesses and --split write them",
        )
}

/// The option of parts.
fn split_option<'a>(alloc: Global) -> Result<Arg<'a>, AllocError> {
    Ok(
        Arg::new(alloc, "split")
            .long("split")
            .value_name("N")
            .value_parser(value_parser!(u32))
            .help(
                "writes at most N runs, 1 to 65536, after which --from can begin, so that together they explore the whole; into the folder of --witnesses, or this one",
            ),
    )
}

/// A line with one more option of a number.
fn with_number<'a>(
    alloc: Global,
    line: Line<'a>,
    name: &'a str,
    default: &'a str,
    help: &'a str,
) -> Result<Line<'a>, AllocError> {
    line.arg(number(alloc, name, default, help)?)
}

/// A line with one more command.
fn with_command<'a>(
    line: Line<'a>,
    command: Result<Line<'a>, AllocError>,
) -> Result<Line<'a>, AllocError> {
    line.subcommand(command?)
}

/// What `jvm run --help` ends with.
const RUN_EXAMPLES: &str = "Examples:\n  \
    jvm run examples/sum.j\n  \
    jvm run --carriers 4 --journal square.journal examples/Square.j examples/Shape.j";

/// What `jvm debug --help` ends with.
const DEBUG_COMMANDS: &str = "Commands, one a line:\n  \
    break C.m(A)R PC  a breakpoint at an instruction, as break E.main()V 0\n  \
    delete N          deletes a breakpoint\n  \
    step T            a turn of thread T\n  \
    gc                a turn of the collector\n  \
    run N             N turns of threads, a turn of the collector after each\n  \
    stack T           the frames of thread T\n  \
    object B          the object of birth B\n  \
    heap              the cells, and the collector's phase\n  \
    class C           the state of a class\n  \
    quit              ends the session";

/// What `jvm explore --help` ends with.
const EXPLORE_EXAMPLES: &str = "Examples:\n  \
    jvm explore examples/D.j\n  \
    jvm explore --no-room --witnesses /tmp examples/explore/room.j\n  \
    jvm explore --workers 4 examples/workers.j\n  \
    jvm explore --split 8 --witnesses /tmp examples/D.j\n  \
    jvm explore --from /tmp/1.journal examples/D.j";

/// A line with the options that say how much there is of everything.
fn with_limits<'a>(alloc: Global, line: Line<'a>) -> Result<Line<'a>, AllocError> {
    let line = with_number(alloc, line, "small", "64", "cells of 4 words")?;
    let line = with_number(alloc, line, "medium", "16", "cells of 32 words")?;
    let line = with_number(alloc, line, "large", "4", "cells of 256 words")?;
    let line = with_number(alloc, line, "steps", "1000000", "turns that may be made")?;
    with_number(alloc, line, "output", "65536", "bytes that may be printed")
}

/// The words of `jvm run`.
fn run_line<'a>(alloc: Global) -> Result<Line<'a>, AllocError> {
    let line = Line::new(alloc, "run")
        .about("Runs the main of the first file's class")
        .after_help(RUN_EXAMPLES);
    let line = with_limits(alloc, line)?;
    let line = with_number(
        alloc,
        line,
        "gc",
        "1",
        "collector turns after a thread's turn, 0 to 1000",
    )?;
    let line = with_number(
        alloc,
        line,
        "carriers",
        "1",
        "threads that carry turns, 1 to 8; from 2 on the collector is one beside them, and --gc says nothing",
    )?;
    line.arg(journal_option(alloc))?
        .arg(check_option(alloc))?
        .arg(sources(alloc))
}

/// The words of `jvm debug`.
fn debug_line<'a>(alloc: Global) -> Result<Line<'a>, AllocError> {
    let line = Line::new(alloc, "debug")
        .about("Steps through a run, by commands from standard input")
        .after_help(DEBUG_COMMANDS);
    with_limits(alloc, line)?.arg(sources(alloc))
}

/// The words of `jvm explore`.
fn explore_line<'a>(alloc: Global) -> Result<Line<'a>, AllocError> {
    let line = Line::new(alloc, "explore")
        .about("Explores every schedule of a program, and reports its outcomes")
        .after_help(EXPLORE_EXAMPLES);
    let line = with_number(alloc, line, "states", "1000000", "states that may be kept")?;
    let line = with_number(
        alloc,
        line,
        "steps",
        "1000000",
        "turns that may lead to a state",
    )?;
    let line = with_number(alloc, line, "output", "4096", "bytes that may be printed")?;
    let line = with_number(
        alloc,
        line,
        "workers",
        "1",
        "threads that explore, 1 to 64, each a part of the whole; each may keep as many states as --states says",
    )?;
    line.arg(no_room_option(alloc))?
        .arg(witnesses_option(alloc))?
        .arg(from_option(alloc))?
        .arg(split_option(alloc)?)?
        .arg(sources(alloc))
}

/// The words of `jvm asm`.
fn assemble_line<'a>(alloc: Global) -> Result<Line<'a>, AllocError> {
    Line::new(alloc, "asm")
        .about("Writes the class file of a Jasmin text")
        .arg(file(alloc, "FILE", "the text"))?
        .arg(file(alloc, "OUT", "the class file to write"))
}

/// The words of `jvm dis`.
fn disassemble_line<'a>(alloc: Global) -> Result<Line<'a>, AllocError> {
    Line::new(alloc, "dis")
        .about("Writes the Jasmin text of a class file")
        .arg(file(alloc, "FILE", "the class file"))
}

/// The words of `jvm replay`.
fn replay_line<'a>(alloc: Global) -> Result<Line<'a>, AllocError> {
    Line::new(alloc, "replay")
        .about("Makes a run again from its journal, turn by turn")
        .arg(file(alloc, "JOURNAL", "the journal, of either version"))?
        .arg(sources(alloc))
}

/// The words of `jvm upgrade`.
fn upgrade_line<'a>(alloc: Global) -> Result<Line<'a>, AllocError> {
    Line::new(alloc, "upgrade")
        .about("Writes a journal of either version in version 2")
        .arg(file(alloc, "IN", "the journal"))?
        .arg(file(alloc, "OUT", "the journal to write"))
}

/// The words of `jvm explain`.
fn explain_line<'a>(alloc: Global) -> Result<Line<'a>, AllocError> {
    let code = Arg::new(alloc, "CODE").help(
        "a code, as J5, or an exit status; all where there is none",
    );
    Line::new(alloc, "explain")
        .about("Says what a code or an exit status means")
        .arg(code)
}

/// The words that clap reads: the commands and what stands after them.
fn line<'a>(alloc: Global) -> Result<Line<'a>, AllocError> {
    let line = Line::new(alloc, "jvm")
        .about("A small Java virtual machine with an on-the-fly collector")
        .version("0.1.0")
        .subcommand_required(true);
    let line = with_command(line, run_line(alloc))?;
    let line = with_command(line, debug_line(alloc))?;
    let line = with_command(line, explore_line(alloc))?;
    let line = with_command(line, replay_line(alloc))?;
    let line = with_command(line, upgrade_line(alloc))?;
    let line = with_command(line, explain_line(alloc))?;
    let line = with_command(line, assemble_line(alloc))?;
    with_command(line, disassemble_line(alloc))
}

/// The file name under a name of the line, copied. `Options` where there is none, which clap rules out.
fn one_file(alloc: Global, matches: &ArgMatches<'_>, name: &str) -> Result<String, LineError> {
    match matches.get_str(name) {
        Some(file) => Ok(String::from_str(alloc, file)?),
        None => Err(LineError::Options),
    }
}

/// The file names, copied. `Options` where there is none.
fn files(alloc: Global, matches: &ArgMatches<'_>) -> Result<Vec<String>, LineError>
    ensures { IfOk result (λ files. 0 < length files.items) }
{
    let mut files = Vec::new(alloc);
    for name in matches.get_strs("FILE").unwrap_or(&[]) {
        files.push(String::from_str(alloc, *name)?)?;
    }
    if files.is_empty() {
        return Err(LineError::Options);
    }
    Ok(files)
}

/// The word under a name of the line, copied, if there is one.
fn path(alloc: Global, matches: &ArgMatches<'_>, name: &str) -> Result<Option<String>, AllocError> {
    match matches.get_str(name) {
        Some(path) => Ok(Some(String::from_str(alloc, path)?)),
        None => Ok(None),
    }
}

/// The number of an option, if it has one.
fn number_in(matches: &ArgMatches<'_>, name: &str) -> Option<u32>
    ensures { IsNumber (found_of matches.now) name.now (unwrap_or result 0) }
{
    matches.get_one::<u32>(name)
}

/// The number of an option; 0 where it has none, which its default rules out.
fn number_of(matches: &ArgMatches<'_>, name: &str) -> u32
    ensures { IsNumber (found_of matches.now) name.now result }
{
    number_in(matches, name).unwrap_or(0)
}

/// The options of a world, each number from the words after its own name.
fn world_options(matches: &ArgMatches<'_>) -> WorldOptions
    ensures { HasLimits (found_of matches.now) result }
{
    WorldOptions {
        small: number_of(matches, "small"),
        medium: number_of(matches, "medium"),
        large: number_of(matches, "large"),
        steps: number_of(matches, "steps"),
        output: number_of(matches, "output"),
    }
}

/// The options of `run`, each number from the words after its own name.
fn run_options(alloc: Global, matches: &ArgMatches<'_>) -> Result<RunOptions, LineError>
    ensures numbers { IfOk result (HasNumbers (found_of matches.now)) }
    ensures files { IfOk result (λ options. 0 < length options.files.items) }
    ensures gc { IfOk result (λ options. options.gc ≤ 1000) }
    ensures some { IfOk result (λ options. 1 ≤ options.carriers) }
    ensures few { IfOk result (λ options. options.carriers ≤ 8) }
{
    let gc = number_of(matches, "gc");
    let carriers = number_of(matches, "carriers");
    if gc > 1000 || carriers < 1 || carriers > 8 {
        return Err(LineError::Options);
    }
    Ok(RunOptions {
        world: world_options(matches),
        gc,
        carriers: carriers as u8,
        journal: path(alloc, matches, "journal")?,
        check: matches.get_flag("check"),
        files: files(alloc, matches)?,
    })
}

/// The options of `debug`, each number from the words after its own name.
fn debug_options(alloc: Global, matches: &ArgMatches<'_>) -> Result<DebugOptions, LineError>
    ensures numbers { IfOk result (λ options. HasLimits (found_of matches.now) options.world) }
    ensures files { IfOk result (λ options. 0 < length options.files.items) }
{
    Ok(DebugOptions {
        world: world_options(matches),
        files: files(alloc, matches)?,
    })
}

/// Whether an exploration can be divided into so many parts, where it is divided.
fn may_be_parts(split: Option<u32>) -> bool
    ensures { IsTrue result → IfSome split IsPartCount }
{
    match split {
        None => true,
        Some(parts) => 1 <= parts && parts <= 65_536,
    }
}

/// Whether so many threads can explore. Only one can divide an exploration.
fn may_be_workers(workers: u32, split: Option<u32>) -> bool
    ensures count { IsTrue result → IsWorkerCount workers }
    ensures alone { IsTrue result → is_some split ≡ true → workers ≡ 1 }
{
    1 <= workers && workers <= 64 && (workers == 1 || split.is_none())
}

/// The options of `explore`, each number from the words after its own name. `Options` where a number is out of its range,
/// or several threads are to divide an exploration.
fn explore_options(alloc: Global, matches: &ArgMatches<'_>) -> Result<ExploreOptions, LineError>
    ensures numbers { IfOk result (HasBounds (found_of matches.now)) }
    ensures files { IfOk result (λ options. 0 < length options.files.items) }
    ensures states { IfOk result (λ options. 1 ≤ options.states) }
    ensures limits { IfOk result (λ options. LimitsFit options.limits.steps options.limits.output) }
    ensures parts { IfOk result (λ options. IfSome options.split IsPartCount) }
    ensures workers { IfOk result (λ options. IsWorkerCount options.workers) }
    ensures alone { IfOk result DividesAlone }
{
    let states = number_of(matches, "states");
    let split = number_in(matches, "split");
    let workers = number_of(matches, "workers");
    let limits = Limits {
        steps: number_of(matches, "steps"),
        output: number_of(matches, "output"),
    };
    if states < 1
        || !limits.is_in_range()
        || !may_be_parts(split)
        || !may_be_workers(workers, split)
    {
        return Err(LineError::Options);
    }
    Ok(ExploreOptions {
        states,
        limits,
        no_room: matches.get_flag("no-room"),
        witnesses: path(alloc, matches, "witnesses")?,
        from: path(alloc, matches, "from")?,
        split,
        workers: workers as u8,
        files: files(alloc, matches)?,
    })
}

/// What clap says of words that it doesn't take, or `Memory` where it had none.
fn reported(alloc: Global, error: ClapError) -> Result<LineError, AllocError> {
    if error.kind() == ErrorKind::OutOfMemory {
        return Ok(LineError::Memory);
    }
    Ok(LineError::Words {
        mistake: error.use_stderr(),
        text: error.to_string(alloc)?,
    })
}

/// The options of `asm`.
fn assemble_options(alloc: Global, matches: &ArgMatches<'_>) -> Result<AssembleOptions, LineError> {
    Ok(AssembleOptions {
        file: one_file(alloc, matches, "FILE")?,
        out: one_file(alloc, matches, "OUT")?,
    })
}

/// The options of `replay`.
fn replay_options(alloc: Global, matches: &ArgMatches<'_>) -> Result<ReplayOptions, LineError>
    ensures { IfOk result (λ options. 0 < length options.files.items) }
{
    Ok(ReplayOptions {
        journal: one_file(alloc, matches, "JOURNAL")?,
        files: files(alloc, matches)?,
    })
}

/// The options of `upgrade`.
fn upgrade_options(alloc: Global, matches: &ArgMatches<'_>) -> Result<UpgradeOptions, LineError> {
    Ok(UpgradeOptions {
        journal: one_file(alloc, matches, "IN")?,
        out: one_file(alloc, matches, "OUT")?,
    })
}

/// The command that clap found. `Options` where no file is named, a number is out of its range, or several workers are to
/// divide an exploration.
fn command_of(alloc: Global, matches: &ArgMatches<'_>) -> Result<Command, LineError>
    ensures files { IfOk result HasFiles }
    ensures range { IfOk result InRange }
{
    match matches.subcommand() {
        Some(("asm", asm)) => Ok(Command::Assemble(assemble_options(alloc, asm)?)),
        Some(("debug", debug)) => Ok(Command::Debug(debug_options(alloc, debug)?)),
        Some(("explore", explore)) => Ok(Command::Explore(explore_options(alloc, explore)?)),
        Some(("dis", dis)) => Ok(Command::Disassemble(one_file(alloc, dis, "FILE")?)),
        Some(("replay", replay)) => Ok(Command::Replay(replay_options(alloc, replay)?)),
        Some(("upgrade", upgrade)) => Ok(Command::Upgrade(upgrade_options(alloc, upgrade)?)),
        Some(("explain", explain)) => Ok(Command::Explain(path(alloc, explain, "CODE")?)),
        Some((_, run)) => Ok(Command::Run(run_options(alloc, run)?)),
        None => Err(LineError::Options),
    }
}

/// The command that the words stand for, the program's own name first. `Words` where clap takes none of them, `Options`
/// where no file is named, a number is out of its range, or several workers are to divide an exploration, `Memory` where
/// there was none.
pub fn options(alloc: Global, words: &[&str]) -> Result<Command, LineError>
    ensures files { IfOk result HasFiles }
    ensures range { IfOk result InRange }
{
    match line(alloc)?.try_get_matches_from(words) {
        Ok(matches) => command_of(alloc, &matches),
        Err(error) => Err(reported(alloc, error)?),
    }
}
