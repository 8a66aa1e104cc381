// The words of the command line.
ghost use Rattle.std.specs.Prelude.{◌≡◌, ◌≤◌, ◌-◌, ◌^◌, Some, map, string_bytes, option_map, IfSome};
ghost use Rattle.psos_limits.specs.declared.TheConstants.{MOST_LINES, MOST_PAGE_FRAMES, LEAST_PAGE_FRAMES};
ghost use Rattle.psos_text.specs.Number.{number_of};
ghost use Rattle.psos_top.specs.Words.{command_of, takes_frames, takes_seed, takes_users, first_number, with_option, options_in, with_numbers, words_asked, AreWithin, CanBeMade};

use crate::Command;
use psos_limits::{LEAST_PAGE_FRAMES, MOST_LINES, MOST_PAGE_FRAMES};
use psos_text::read_number;

/// The options that are given so far, with their numbers.
#[derive(Clone, Copy)]
pub(crate) struct Options {
    pub frames: Option<u64>,
    pub seed: Option<u64>,
    pub users: Option<u64>,
    pub lines: Option<u64>,
}

/// What the words ask for.
#[derive(Clone, Copy)]
pub(crate) struct Asked {
    pub command: Command,
    pub frames: u16,
}

// The command that a word names.
fn command_of(word: &str) -> Option<Command>
    ensures command { result ≡ command_of word.now }
    ensures range { IfSome result CanBeMade }
{
    if word == "serial" {
        return Some(Command::Serial);
    }
    if word == "turns" {
        return Some(Command::Turns(1));
    }
    if word == "run" {
        return Some(Command::Run);
    }
    if word == "load" {
        return Some(Command::Load {
            users: 4,
            lines: 100,
            seed: 1,
        });
    }
    None
}

// The number that a word spells.
fn number_in(word: &str) -> Option<u64>
    ensures { result ≡ number_of word.now }
{
    match read_number(word.as_bytes()) {
        Ok(n) => Some(n),
        Err(_) => None,
    }
}

fn takes_frames(command: Command) -> bool
    ensures { result ≡ takes_frames command }
{
    match command {
        Command::Serial | Command::Turns(_) | Command::Run => true,
        Command::Load { .. } => false,
    }
}

fn takes_seed(command: Command) -> bool
    ensures { result ≡ takes_seed command }
{
    match command {
        Command::Serial | Command::Run => false,
        Command::Turns(_) | Command::Load { .. } => true,
    }
}

fn takes_users(command: Command) -> bool
    ensures { result ≡ takes_users command }
{
    match command {
        Command::Serial | Command::Turns(_) | Command::Run => false,
        Command::Load { .. } => true,
    }
}

// A number of this range that stands for the first time, of an option that the command takes.
fn first_number(
    takes: bool,
    least: u64,
    most: u64,
    given: Option<u64>,
    number: Option<u64>,
) -> Option<u64>
    ensures number { result ≡ first_number takes least most given number }
    ensures least { IfSome result (λ n. least ≤ n) }
    ensures most { IfSome result (λ n. n ≤ most) }
{
    match (given, number) {
        (None, Some(n)) if takes && least <= n && n <= most => Some(n),
        _ => None,
    }
}

// The number of frames, for the first time.
fn with_frames(command: Command, given: Options, number: Option<u64>) -> Option<Options>
    requires { AreWithin given }
    ensures options { result ≡ option_map (λ n. record given { frames = Some n }) (first_number (takes_frames command) LEAST_PAGE_FRAMES MOST_PAGE_FRAMES given.frames number) }
    ensures range { IfSome result AreWithin }
{
    let takes = takes_frames(command);
    let (least, most) = (u64::from(LEAST_PAGE_FRAMES), u64::from(MOST_PAGE_FRAMES));
    match first_number(takes, least, most, given.frames, number) {
        Some(n) => Some(Options {
            frames: Some(n),
            seed: given.seed,
            users: given.users,
            lines: given.lines,
        }),
        None => None,
    }
}

// The seed, for the first time.
fn with_seed(command: Command, given: Options, number: Option<u64>) -> Option<Options>
    requires { AreWithin given }
    ensures options { result ≡ option_map (λ n. record given { seed = Some n }) (first_number (takes_seed command) 0 (2 ^ 64 - 1) given.seed number) }
    ensures range { IfSome result AreWithin }
{
    match first_number(takes_seed(command), 0, u64::MAX, given.seed, number) {
        Some(n) => Some(Options {
            frames: given.frames,
            seed: Some(n),
            users: given.users,
            lines: given.lines,
        }),
        None => None,
    }
}

// The number of users, for the first time.
fn with_users(command: Command, given: Options, number: Option<u64>) -> Option<Options>
    requires { AreWithin given }
    ensures options { result ≡ option_map (λ n. record given { users = Some n }) (first_number (takes_users command) 1 8 given.users number) }
    ensures range { IfSome result AreWithin }
{
    match first_number(takes_users(command), 1, 8, given.users, number) {
        Some(n) => Some(Options {
            frames: given.frames,
            seed: given.seed,
            users: Some(n),
            lines: given.lines,
        }),
        None => None,
    }
}

// The number of lines, for the first time.
fn with_lines(command: Command, given: Options, number: Option<u64>) -> Option<Options>
    requires { AreWithin given }
    ensures options { result ≡ option_map (λ n. record given { lines = Some n }) (first_number (takes_users command) 1 MOST_LINES given.lines number) }
    ensures range { IfSome result AreWithin }
{
    match first_number(
        takes_users(command),
        1,
        MOST_LINES as u64,
        given.lines,
        number,
    ) {
        Some(n) => Some(Options {
            frames: given.frames,
            seed: given.seed,
            users: given.users,
            lines: Some(n),
        }),
        None => None,
    }
}

// One option more, with its number.
fn with_option(
    command: Command,
    given: Options,
    option: &str,
    number: Option<u64>,
) -> Option<Options>
    requires { AreWithin given }
    ensures options { result ≡ with_option command given option.now number }
    ensures range { IfSome result AreWithin }
{
    if option == "--frames" {
        return with_frames(command, given, number);
    }
    if option == "--seed" {
        return with_seed(command, given, number);
    }
    if option == "--users" {
        return with_users(command, given, number);
    }
    if option == "--lines" {
        return with_lines(command, given, number);
    }
    None
}

// Pairs of an option and a number, each option once at most.
fn options_in(command: Command, words: &[String], given: Options) -> Option<Options>
    requires { AreWithin given }
    ensures options { result ≡ options_in command (map string_bytes words.now) given }
    ensures range { IfSome result AreWithin }
{
    let Some((option, others)) = words.split_first() else {
        return Some(given);
    };
    let Some((number, others)) = others.split_first() else {
        return None;
    };
    let number = number_in(number.as_str());
    match with_option(command, given, option.as_str(), number) {
        Some(more) => options_in(command, others, more),
        None => None,
    }
}

// The command with the numbers that are given.
fn with_numbers(command: Command, given: Options) -> Command
    requires given { AreWithin given }
    requires made { CanBeMade command }
    ensures command { result ≡ with_numbers command given }
    ensures range { CanBeMade result }
{
    match command {
        Command::Serial => Command::Serial,
        Command::Turns(seed) => Command::Turns(given.seed.unwrap_or(seed)),
        Command::Run => Command::Run,
        Command::Load { users, lines, seed } => Command::Load {
            users: given.users.unwrap_or(u64::from(users)) as u8,
            lines: given.lines.unwrap_or(u64::from(lines)) as u16,
            seed: given.seed.unwrap_or(seed),
        },
    }
}

/// What the words ask for, exactly where they have the shape (docs/program.md, "Options"). It takes no memory.
pub(crate) fn read_words(words: &[String]) -> Option<Asked>
    ensures shape { result ≡ words_asked (map string_bytes words.now) }
    ensures range { IfSome result (λ asked. (LEAST_PAGE_FRAMES ≤ asked.frames) × (asked.frames ≤ MOST_PAGE_FRAMES)) }
    ensures made { IfSome result (λ asked. CanBeMade asked.command) }
{
    let Some((word, others)) = words.split_first() else {
        return None;
    };
    let Some(command) = command_of(word.as_str()) else {
        return None;
    };
    let none = Options {
        frames: None,
        seed: None,
        users: None,
        lines: None,
    };
    match options_in(command, others, none) {
        Some(given) => Some(Asked {
            command: with_numbers(command, given),
            frames: given.frames.unwrap_or(32) as u16,
        }),
        None => None,
    }
}
