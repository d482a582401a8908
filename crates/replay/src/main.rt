// Replays a fixed list of cases: each is a script, the two stores and the answers that the crate gave, or that document 01 gives. It prints how many
// there are, how many agree, and which differ; what it must print is in the gate.
#![tactic(auto)]

ghost use Rattle.std.specs.Prelude.{◌≤◌, length, OnOk};

use art::memory_rgba8_texture::Stores;
use std::io::Read;
use std::{fs, io};

// A case that is cut short or too large.
#[derive(Drop)]
struct Broken;

// The parts of a case, and the answers that it is given now.
#[derive(Drop)]
struct Case {
    script: [u8; 65536],
    symbols: [u8; 65536],
    wording: [u8; 65536],
    expected: [u8; 65536],
    answers: [u8; 65536],
}

// Reads until the buffer is full, the file ends or a read fails, also where a signal interrupted it, and answers how many bytes are in the front of the
// buffer.
fn read_full<F: Read>(file: &mut F, buf: &mut [u8]) -> usize
    ensures { result ≤ length buf.new }
{
    let mut done = 0;
    while done < buf.len() {
        let n = file.read(&mut buf[done..]).unwrap_or(0);
        if n == 0 {
            break;
        }
        done += n;
    }
    done
}

// A part of n bytes.
fn read_part<F: Read>(file: &mut F, buf: &mut [u8], n: usize) -> Result<(), Broken>
    ensures { OnOk result (n ≤ length buf.new) }
{
    if buf.len() < n {
        return Err(Broken);
    }
    if read_full(file, &mut buf[..n]) < n {
        return Err(Broken);
    }
    Ok(())
}

// A case is the lengths of its four parts, a word each, and the parts: script, symbols, wording, expected answers. Whether its answers are those expected,
// to the byte.
fn next_case<F: Read>(file: &mut F, case: &mut Case) -> Result<bool, Broken> {
    let mut header = [0u8; 16];
    if read_full(file, &mut header) < header.len() {
        return Err(Broken);
    }
    let a = wire::words::word_at(&header, 0) as usize;
    let b = wire::words::word_at(&header, 4) as usize;
    let c = wire::words::word_at(&header, 8) as usize;
    let d = wire::words::word_at(&header, 12) as usize;
    read_part(file, &mut case.script, a)?;
    read_part(file, &mut case.symbols, b)?;
    read_part(file, &mut case.wording, c)?;
    read_part(file, &mut case.expected, d)?;
    let stores = Stores {
        symbols: &case.symbols[..b],
        wording: &case.wording[..c],
    };
    let n = script::run(&case.script[..a], stores, &mut case.answers);
    Ok(case.answers.get(..n) == Some(&case.expected[..d]))
}

// How many cases the file says it has; 0 where it does not even say that.
fn told_cases<F: Read>(file: &mut F) -> u32 {
    let mut count = [0u8; 4];
    if read_full(file, &mut count) < count.len() {
        return 0;
    }
    wire::words::word_at(&count, 0)
}

// What cannot be written is left unsaid: the replay goes on.
fn replay<F: Read>(rt: &impl Print, file: &mut F, told: u32, case: &mut Case) {
    let mut cases = told;
    let mut agree: u32 = 0;
    for i in 0..told {
        match next_case(file, case) {
            Ok(agrees) => {
                if !agrees {
                    let _ = println!(rt; "case {i} differs");
                }
                agree += u32::from(agrees);
            }
            Err(Broken) => {
                let _ = println!(rt; "case {i} is cut short or too large");
                cases = i;
                break;
            }
        }
    }
    let _ = println!(rt; "{cases} cases, {agree} agree");
}

// On standard error, without the number that std puts behind the system's words.
fn say_failure(rt: &(impl AllocGlobal + Eprint), what: &str, error: io::Error) {
    let _ = match format!(in rt.alloc(); "{error}") {
        Ok(text) => eprintln!(rt; "{what}: {}", words_of(text.as_str())),
        Err(_) => eprintln!(rt; "{what}: {error}"),
    };
}

fn words_of(text: &str) -> &str {
    match text.split_once(" (os error ") {
        Some((words, _)) => words,
        None => text,
    }
}

fn main(rt: HostRuntime) {
    let mut file = match fs::open(&rt, "cases.bin") {
        Ok(file) => file,
        Err(error) => {
            say_failure(&rt, "cases.bin", error);
            return;
        }
    };
    let mut case = Case {
        script: [0; 65536],
        symbols: [0; 65536],
        wording: [0; 65536],
        expected: [0; 65536],
        answers: [0; 65536],
    };
    let told = told_cases(&mut file);
    replay(&rt, &mut file, told, &mut case);
}
