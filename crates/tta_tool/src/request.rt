//! What the words of a command line ask for. A name is that of a file.

ghost use Rattle.std.specs.Prelude.{◌≡◌, map, option_map};
ghost use Rattle.std.specs.String.{string_bytes};
ghost use Rattle.tta_tool.specs.Request as r;

use crate::names::{
    BuildRequest, CheckRequest, ConvertRequest, RunFiles, RunRequest, SampleRequest,
    SessionRequest, WriteRequest,
};
use crate::numbers::{lines_of, seed_of};
use tta_load::bound_of;
use tta_net_command::{NetRequest, is_net, rounds_of};

/// What is asked for.
#[derive(Clone, Copy)]
pub enum Request<'w> {
    Build(BuildRequest<'w>),
    Asm(WriteRequest<'w>),
    Dis(WriteRequest<'w>),
    Check(CheckRequest<'w>),
    Exec(RunRequest<'w>),
    Run(RunRequest<'w>),
    Debug(SessionRequest<'w>),
    Sample(SampleRequest<'w>),
    Ifconv(ConvertRequest<'w>),
    Net(NetRequest<'w>),
}

/// `build`: a machine, a program and the file of an image, and the word `convert` behind them where the
/// branches of the program are converted first.
fn of_build<'w>(words: &'w [String]) -> Option<Request<'w>>
    ensures { option_map r.asked result
        ≡ r.build_request (map (λ w. string_bytes w) words.now) }
{
    let (machine, second, out, converts) = match words {
        [machine, second, out] => (machine, second, out, false),
        [machine, second, out, mode] => {
            if mode.as_str() != "convert" {
                return None;
            }
            (machine, second, out, true)
        }
        _ => return None,
    };
    let names = WriteRequest {
        machine,
        second,
        out,
    };
    Some(Request::Build(BuildRequest { names, converts }))
}

/// `asm`: a machine, assembly for it, and the file of an image.
fn of_asm<'w>(words: &'w [String]) -> Option<Request<'w>>
    ensures { option_map r.asked result
        ≡ r.asm_request (map (λ w. string_bytes w) words.now) }
{
    match words {
        [machine, second, out] => Some(Request::Asm(WriteRequest {
            machine,
            second,
            out,
        })),
        _ => None,
    }
}

/// `dis`: a machine, an image for it, and the file of its assembly.
fn of_dis<'w>(words: &'w [String]) -> Option<Request<'w>>
    ensures { option_map r.asked result
        ≡ r.dis_request (map (λ w. string_bytes w) words.now) }
{
    match words {
        [machine, second, out] => Some(Request::Dis(WriteRequest {
            machine,
            second,
            out,
        })),
        _ => None,
    }
}

/// `check`: a machine and an image for it.
fn of_check<'w>(words: &'w [String]) -> Option<Request<'w>>
    ensures { option_map r.asked result
        ≡ r.check_request (map (λ w. string_bytes w) words.now) }
{
    match words {
        [machine, image] => Some(Request::Check(CheckRequest { machine, image })),
        _ => None,
    }
}

/// The files of a run with the word after its data words, which the file of an input may follow.
fn run_words<'w>(words: &'w [String]) -> Option<(RunFiles<'w>, &'w str)>
    ensures { option_map (λ w. (r.files_in w.0, w.1.now)) result
        ≡ r.run_words (map (λ w. string_bytes w) words.now) }
{
    match words {
        [machine, second, input, last] => {
            let files = RunFiles {
                machine,
                second,
                input,
                stream: None,
            };
            Some((files, last))
        }
        [machine, second, input, last, stream] => {
            let files = RunFiles {
                machine,
                second,
                input,
                stream: Some(stream.as_str()),
            };
            Some((files, last))
        }
        _ => None,
    }
}

/// A run by its words, the fourth of which is its bound.
fn bounded<'w>(words: &'w [String]) -> Option<RunRequest<'w>>
    ensures { option_map (λ w. (r.files_in w.names, w.bound)) result
        ≡ r.bounded (map (λ w. string_bytes w) words.now) }
{
    let (names, last) = run_words(words)?;
    let bound = bound_of(last.as_bytes())?;
    Some(RunRequest { names, bound })
}

/// `exec`: a run of a program, within so many steps.
fn of_exec<'w>(words: &'w [String]) -> Option<Request<'w>>
    ensures { option_map r.asked result
        ≡ r.exec_request (map (λ w. string_bytes w) words.now) }
{
    let run = bounded(words)?;
    Some(Request::Exec(run))
}

/// `run`: a run of an image, within so many cycles.
fn of_run<'w>(words: &'w [String]) -> Option<Request<'w>>
    ensures { option_map r.asked result
        ≡ r.run_request (map (λ w. string_bytes w) words.now) }
{
    let run = bounded(words)?;
    Some(Request::Run(run))
}

/// `debug`: a run of an image, and the file of a script.
fn of_debug<'w>(words: &'w [String]) -> Option<Request<'w>>
    ensures { option_map r.asked result
        ≡ r.debug_request (map (λ w. string_bytes w) words.now) }
{
    let (names, script) = run_words(words)?;
    Some(Request::Debug(SessionRequest { names, script }))
}

/// `sample`: a seed, a number of lines, and a machine.
fn of_sample<'w>(words: &'w [String]) -> Option<Request<'w>>
    ensures { option_map r.asked result
        ≡ r.sample_request (map (λ w. string_bytes w) words.now) }
{
    match words {
        [seed, lines, machine] => {
            let seed = seed_of(seed.as_bytes())?;
            let lines = lines_of(lines.as_bytes())?;
            Some(Request::Sample(SampleRequest {
                seed,
                lines,
                machine,
            }))
        }
        _ => None,
    }
}

/// `ifconv`: a program, and the file of the converted one.
fn of_ifconv<'w>(words: &'w [String]) -> Option<Request<'w>>
    ensures { option_map r.asked result
        ≡ r.ifconv_request (map (λ w. string_bytes w) words.now) }
{
    match words {
        [program, out] => Some(Request::Ifconv(ConvertRequest { program, out })),
        _ => None,
    }
}

/// `net`: a number of rounds, the file of links, and three files for each core.
fn of_net<'w>(words: &'w [String]) -> Option<Request<'w>>
    ensures { option_map r.asked result
        ≡ r.net_request (map (λ w. string_bytes w) words.now) }
{
    match words {
        [rounds, links, names @ ..] => {
            if !is_net(names.len()) {
                return None;
            }
            let rounds = rounds_of(rounds.as_bytes())?;
            Some(Request::Net(NetRequest {
                rounds,
                links,
                names,
            }))
        }
        _ => None,
    }
}

/// The request of a command by its name and the words after it.
fn named<'w>(name: &str, words: &'w [String]) -> Option<Request<'w>>
    ensures { option_map r.asked result
        ≡ r.named_request name.now (map (λ w. string_bytes w) words.now) }
{
    if name == "build" {
        return of_build(words);
    }
    if name == "asm" {
        return of_asm(words);
    }
    if name == "dis" {
        return of_dis(words);
    }
    if name == "check" {
        return of_check(words);
    }
    if name == "exec" {
        return of_exec(words);
    }
    if name == "run" {
        return of_run(words);
    }
    if name == "debug" {
        return of_debug(words);
    }
    if name == "sample" {
        return of_sample(words);
    }
    if name == "ifconv" {
        return of_ifconv(words);
    }
    if name == "net" {
        return of_net(words);
    }
    None
}

impl<'w> Request<'w> {
    /// What the words ask for, the first of them the command's name. `None` where they are no
    /// command.
    pub fn of(words: &'w Vec<String>) -> Option<Request<'w>>
        ensures { option_map r.asked result
            ≡ r.request_of (map (λ w. string_bytes w) words.now.items) }
    {
        match words.as_slice() {
            [name, rest @ ..] => named(name, rest),
            _ => None,
        }
    }
}
