//! Answers a design: `stage [--facts] [FILE]`, where no file, or `-`, is the standard input.
#![tactic(auto)]

use design::fault::Complaint;
use report::run::{Form, answer_design};
use std::process::ExitCode;
use std::{env, fs, io};

const USAGE: &str = "usage: stage [--facts] [FILE]
Answers the questions of a design. Without FILE, or with -, it reads the standard input.
--facts prints one fact a line, for comparing.";

/// Where a design is read from: an Option of a name would not say that none is the standard input.
#[derive(Drop)]
enum Source {
    Input,
    File(String),
}

/// What the program is asked to do.
#[derive(Drop)]
struct Task {
    form: Form,
    source: Source,
}

/// Why the program ends with status 1: the reason is written by then.
#[derive(Drop)]
struct Failed;

impl From<io::Error> for Failed {
    fn from(_e: io::Error) -> Failed {
        Failed
    }
}

/// The task that the arguments ask for, if they are right.
fn read_task(rt: &HostRuntime) -> io::Result<Option<Task>> {
    let mut form = Form::Report;
    let mut source = None;
    for word in env::args(rt)?.skip(1) {
        if word.as_str() == "--facts" {
            form = Form::Facts;
        } else if source.is_some() {
            return Ok(None);
        } else if word.as_str() == "-" {
            source = Some(Source::Input);
        } else if word.as_str().starts_with('-') {
            return Ok(None);
        } else {
            source = Some(Source::File(word));
        }
    }
    Ok(Some(Task {
        form,
        source: source.unwrap_or(Source::Input),
    }))
}

/// Prints the answers to a design, or what is wrong with it.
fn print_answers<'a>(
    rt: &HostRuntime,
    file: &'a str,
    text: &'a str,
    form: Form,
) -> Result<(), Failed> {
    match answer_design(rt.alloc(), text, form) {
        Ok(answers) => {
            print!(rt; "{answers}")?;
            Ok(())
        }
        Err(fault) => {
            let complaint = Complaint { file, fault };
            eprintln!(rt; "{complaint}")?;
            Err(Failed)
        }
    }
}

fn answer(
    rt: &HostRuntime,
    file: &str,
    text: io::Result<String>,
    form: Form,
) -> Result<(), Failed> {
    match text {
        Ok(text) => print_answers(rt, file, text.as_str(), form),
        Err(e) => {
            eprintln!(rt; "{file}: cannot be read: {e}")?;
            Err(Failed)
        }
    }
}

fn run(rt: &HostRuntime, task: Task) -> Result<(), Failed> {
    let Task { form, source } = task;
    match source {
        Source::Input => answer(
            rt,
            "stdin",
            io::read_to_string(rt.alloc(), rt.stdin()),
            form,
        ),
        Source::File(file) => answer(
            rt,
            file.as_str(),
            fs::read_to_string(rt, file.as_str()),
            form,
        ),
    }
}

fn run_task(rt: &HostRuntime) -> Result<(), Failed> {
    match read_task(rt)? {
        Some(task) => run(rt, task),
        None => {
            eprintln!(rt; "{USAGE}")?;
            Err(Failed)
        }
    }
}

fn main(rt: HostRuntime) -> ExitCode {
    match run_task(&rt) {
        Ok(()) => ExitCode::SUCCESS,
        Err(Failed) => ExitCode::FAILURE,
    }
}
