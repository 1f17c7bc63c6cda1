//! The program `admission`: it reads its words, carries the command out over the standard streams
//! or a configuration's file, and ends with status 0, with 1 and one line on standard error after a
//! fault, or with 2 and the text of a fault of the words.
#![tactic(auto)]

use commands::{Run, parse_args};
use config_check::{CheckOptions, check_file};
use config_explain::Explainer;
use config_file::SystemFiles;
use counted_io::Counted;
use fault_lines::tell_unread_words;
use line_explain::{Kept, LineExplainer};
use listening::SystemAddresses;
use serve_command::{SystemLog, serve_file};
use std::env;
use std::io::Error;
use std::process::ExitCode;
use tasks::Spawner;
use text_commands::{run_load, run_text};

fn main(rt: HostRuntime) -> ExitCode {
    let alloc = rt.alloc();
    let mut errors = Counted::new(rt.stderr());
    let list: Vec<String> = match env::args(&rt).and_then(|args| Ok(args.collect(alloc)?)) {
        Ok(list) => list,
        Err(error) => return ExitCode::from(tell_unread_words(error.kind(), &mut errors)),
    };
    let run = match parse_args(alloc, list.as_slice()) {
        Ok(run) => run,
        Err(error) => {
            let _ = error.print(&rt);
            return ExitCode::from(error.exit_code() as u8);
        }
    };
    let files = SystemFiles::new(&rt);
    let mut writer = Counted::new(rt.stdout());
    ExitCode::from(match run {
        Run::Text { task, explain } => {
            let mut reader = Counted::new(Kept::new(alloc, rt.stdin(), explain));
            run_text(
                &mut LineExplainer::new(alloc),
                alloc,
                task,
                explain,
                &mut reader,
                &mut writer,
                &mut errors,
            )
        }
        Run::Check {
            path,
            explain,
            exchanges,
        } => check_file(
            &rt,
            &files,
            &mut Explainer::new(alloc),
            alloc,
            path,
            CheckOptions { explain, exchanges },
            &mut writer,
            &mut errors,
        ),
        Run::Load {
            limit,
            workers,
            explain,
        } => {
            let mut reader = Counted::new(Kept::new(alloc, rt.stdin(), explain));
            let workers = workers as usize;
            run_load(
                &rt,
                &mut Spawner::new(&rt),
                &mut LineExplainer::new(alloc),
                alloc,
                limit,
                workers,
                explain,
                &mut reader,
                &mut writer,
                &mut errors,
            )
        }
        Run::Serve(options) => {
            let logged = SystemLog::new(rt, rt.process(), options.log_lines);
            serve_file(
                &logged,
                &mut Spawner::new(&logged),
                &files,
                &SystemAddresses::new(&rt),
                alloc,
                &options,
                &mut writer,
                &mut errors,
            )
        }
    })
}
