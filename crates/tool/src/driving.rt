// The two programs: each job that the arguments name, one after the other.
ghost use Rattle.std.specs.Prelude.{◌≡◌, ◌+◌, ◌≤◌, length};

use crate::bands::Pages;
use crate::page_folder::PageFolder;
use crate::preparing::{Names, Ready};
use crate::system::LONGEST;
use crate::{page_folder, placing, preparing, system, telling};
use records::layout::Layout;
use std::rt::{Env, Files};
use std::{fs, str};

// The programs differ in a few words and in what they do with the pages: a match in each of those places says it more plainly than functions passed down.
#[derive(Clone, Copy)]
pub enum Program {
    Pack,
    Verify,
}

// A job's text has at most 64 KiB.
const TEXT: usize = 65536;

// A store has at most 1 MiB.
const STORE: usize = 1048576;

// A page is composed and checked in as many rows as this holds.
const BAND: usize = 65536;

// A job that is not packed or verified: what is wrong is said already.
#[derive(Clone, Copy)]
struct Said;

// A folder that std cannot name is refused before its pages are: where nothing in it can be looked at or removed, a job without pages would pass.
fn do_pages(
    rt: &(impl Files + Print),
    program: Program,
    folder: &[u8],
    pages: Pages<'_>,
    band: &mut [u8],
) -> Result<(), Said> {
    let Ok(name) = str::from_utf8(folder) else {
        telling::say_of(rt, folder, "cannot be opened");
        return Err(Said);
    };
    let files = PageFolder {
        name: folder,
        pages,
    };
    let good = match program {
        Program::Pack => {
            // A folder that is there already stays.
            let _ = fs::create_dir(rt, name);
            files.pack(rt, band)
        }
        Program::Verify => files.verify_all(rt, band),
    };
    if good { Ok(()) } else { Err(Said) }
}

// The job as it is laid out. A refused image ends it before any page is written.
fn do_job(
    rt: &(impl Files + Print),
    program: Program,
    names: Names<'_>,
    text: &mut [u8],
    symbols: &mut [u8],
    wording: &mut [u8],
    band: &mut [u8],
) -> Result<Layout, Said> {
    let Ready { job, stores } = preparing::prepare(rt, names, text, symbols, wording).ok_or(Said)?;
    let laid = laying::lay_out(stores, job);
    if let Program::Pack = program {
        placing::say_places(rt, &laid.layout);
    }
    if let Err(stop) = laid.answer {
        placing::say_stop(rt, names.job, &job, stop);
        return Err(Said);
    }
    let pages = Pages {
        layout: &laid.layout,
        stores,
        background: job.background,
    };
    do_pages(rt, program, names.folder, pages, band)?;
    Ok(laid.layout)
}

fn say_verdict(rt: &impl Print, program: Program, name: &[u8], done: Result<Layout, Said>) {
    let (good, bad) = match program {
        Program::Pack => ("packed", "NOT PACKED"),
        Program::Verify => ("verified", "NOT VERIFIED"),
    };
    match done {
        Ok(layout) => {
            let images = layout.count;
            let pages = page_folder::count_pages(&layout);
            telling::say_of(
                rt,
                name,
                format_args!("{good}, images: {images}, pages: {pages}"),
            );
        }
        Err(Said) => telling::say_of(rt, name, bad),
    }
}

// The job whose four names begin at argument i: the job, the two stores, the folder.
fn run_job(
    rt: &(impl Files + Env + Print),
    program: Program,
    i: usize,
    text: &mut [u8],
    symbols: &mut [u8],
    wording: &mut [u8],
    band: &mut [u8],
)
    requires { i + 3 ≤ 18446744073709551615 }
{
    let mut job_name = [0u8; LONGEST];
    let mut symbols_name = [0u8; LONGEST];
    let mut wording_name = [0u8; LONGEST];
    let mut folder_name = [0u8; LONGEST];
    let a = system::argument(rt, i, &mut job_name);
    let b = system::argument(rt, i + 1, &mut symbols_name);
    let c = system::argument(rt, i + 2, &mut wording_name);
    let d = system::argument(rt, i + 3, &mut folder_name);
    let names = Names {
        job: &job_name[..a],
        symbols: &symbols_name[..b],
        wording: &wording_name[..c],
        folder: &folder_name[..d],
    };
    let done = do_job(rt, program, names, text, symbols, wording, band);
    say_verdict(rt, program, names.job, done);
}

fn say_usage(rt: &impl Print, program: Program) {
    let (name, does) = match program {
        Program::Pack => ("pack", "writes"),
        Program::Verify => ("verify", "checks"),
    };
    let _ = println!(rt;
        "{name} JOB SYMBOLS WORDING FOLDER, as often as there are jobs; {does} FOLDER/page-0.rgba and so on"
    );
}

// Room for a store.
fn store_room() -> [u8; STORE]
    ensures { 1048576 ≡ length result }
{
    [0u8; STORE]
}

pub fn run(rt: &(impl Files + Env + Print), program: Program) {
    let mut symbols = store_room();
    let mut wording = store_room();
    let mut text = [0u8; TEXT];
    let mut band = [0u8; BAND];
    let count = system::argument_count(rt);
    if count < 5 || count % 4 != 1 {
        say_usage(rt, program);
        return;
    }
    for i in (1..count - 3).step_by(4) {
        run_job(
            rt,
            program,
            i,
            &mut text,
            &mut symbols,
            &mut wording,
            &mut band,
        );
    }
}
