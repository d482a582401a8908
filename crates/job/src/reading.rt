// A job's text, line by line.
ghost use Rattle.std.specs.Prelude.{◌≡◌, ◌≤◌, ◌<◌, IfOk};
ghost use Rattle.job.specs.Lines.{line_in};
ghost use Rattle.job.specs.Jobs.{blank_entry, opened_job, entered, with_config, with_ground, next_image, with_image, stepped, taken, after, ended, lines_in, job_in};
ghost use Rattle.geometry.specs.Words.{reached};
ghost use Rattle.job.specs.declared.reading.State.TheVariants.{Start};

use crate::lines;
use crate::lines::{Line, Trouble};
use art::memory_rgba8_texture::{Image, Store};
use paint::background::Background;
use records::frame::Key;
use records::texture_packer_config::Config;

// An image to offer, and the number of its line.
#[derive(Clone, Copy)]
pub struct Entry {
    pub key: Key,
    pub image: Image,
    pub line: usize,
}

// An array and a count, and no vector: a text is never refused for want of memory, and all of a job is determined by its text.
#[derive(Clone, Copy)]
pub struct Job {
    pub config: Config,
    // The number of the config line.
    pub opened: usize,
    pub background: Background,
    pub entries: [Entry; 256],
    pub count: usize,
}

// The trouble, and the number of its line.
#[derive(Clone, Copy)]
pub struct Malformed {
    pub trouble: Trouble,
    pub line: usize,
}

// Before the config line; after it; after a background or an image.
#[derive(Clone, Copy)]
pub enum State {
    Start,
    Open(Job),
    Closed(Job),
}

#[tactic(auto, unfolding(crate::specs::Jobs::blank_entry))]
fn blank_entry() -> Entry
    ensures { result ≡ blank_entry }
{
    Entry {
        key: Key(0),
        image: Image {
            store: Store::Symbols,
            offset: 0,
            w: 0,
            h: 0,
        },
        line: 0,
    }
}

#[tactic(auto, unfolding(crate::specs::Jobs::opened_job))]
fn opened_job(config: Config, line: usize) -> Job
    ensures { result ≡ opened_job config line }
{
    Job {
        config,
        opened: line,
        background: None,
        entries: [blank_entry(); 256],
        count: 0,
    }
}

#[tactic(auto, unfolding(crate::specs::Jobs::entered))]
fn entered_job(mut job: Job, key: Key, image: Image, line: usize) -> Job
    requires { job.count < 256 }
    ensures { result ≡ entered job key image line }
{
    job.entries[job.count] = Entry { key, image, line };
    job.count += 1;
    job
}

#[tactic(auto, unfolding(crate::specs::Jobs::with_config))]
fn with_config(config: Config, n: usize, state: &mut State) -> Result<(), Trouble>
    ensures { reached result state.new ≡ with_config config n state.old }
{
    match *state {
        State::Start => {
            *state = State::Open(opened_job(config, n));
            Ok(())
        }
        State::Open(_) | State::Closed(_) => Err(Trouble::SecondConfig),
    }
}

#[tactic(auto, unfolding(crate::specs::Jobs::with_ground, crate::specs::Jobs::grounded))]
fn with_ground(background: Background, state: &mut State) -> Result<(), Trouble>
    ensures { reached result state.new ≡ with_ground background state.old }
{
    match *state {
        State::Start => Err(Trouble::NoConfig),
        State::Open(job) => {
            *state = State::Closed(Job { background, ..job });
            Ok(())
        }
        State::Closed(_) => Err(Trouble::LateBackground),
    }
}

#[tactic(auto, unfolding(crate::specs::Jobs::next_image))]
fn next_image(key: Key, image: Image, n: usize, job: Job) -> Result<State, Trouble>
    ensures { result ≡ next_image key image n job }
{
    if job.count < 256 {
        return Ok(State::Closed(entered_job(job, key, image, n)));
    }
    Err(Trouble::TooManyImages)
}

#[tactic(auto, unfolding(crate::specs::Jobs::with_image))]
fn with_image(key: Key, image: Image, n: usize, state: &mut State) -> Result<(), Trouble>
    ensures { reached result state.new ≡ with_image key image n state.old }
{
    match *state {
        State::Start => Err(Trouble::NoConfig),
        State::Open(job) | State::Closed(job) => {
            *state = next_image(key, image, n, job)?;
            Ok(())
        }
    }
}

// The state after what line n says, in place: a job is 9 KB, and a line that says nothing copies none of it.
#[tactic(auto, unfolding(crate::specs::Jobs::stepped))]
fn step(n: usize, line: Line, state: &mut State) -> Result<(), Trouble>
    ensures { reached result state.new ≡ stepped n line state.old }
{
    match line {
        Line::Empty => Ok(()),
        Line::Settings(config) => with_config(config, n, state),
        Line::Ground(background) => with_ground(background, state),
        Line::Picture(key, image) => with_image(key, image, n, state),
    }
}

// The state after line n, or its trouble.
#[tactic(auto, unfolding(crate::specs::Jobs::taken))]
fn read_line(n: usize, line: &[u8], state: &mut State) -> Result<(), Malformed>
    ensures { reached result state.new ≡ taken n (line_in line.now) state.old }
{
    let at_line = |trouble| Malformed { trouble, line: n };
    let said = lines::line_of(line).map_err(at_line)?;
    step(n, said, state).map_err(at_line)
}

// The state after every line.
fn read_lines(text: &[u8]) -> Result<State, Malformed>
    ensures { result ≡ after 1 (lines_in text.now) Start }
{
    let mut state = State::Start;
    for (i, line) in text.split(|b| *b == b'\n').enumerate() {
        read_line(i + 1, line, &mut state)?;
    }
    Ok(state)
}

// At the end of the text.
#[tactic(auto, unfolding(crate::specs::Jobs::ended))]
fn end_job(state: State) -> Result<Job, Malformed>
    ensures { result ≡ ended state }
{
    match state {
        State::Start => Err(Malformed {
            trouble: Trouble::NoConfig,
            line: 1,
        }),
        State::Open(job) | State::Closed(job) => Ok(job),
    }
}

pub fn read_job(text: &[u8]) -> Result<Job, Malformed>
    ensures value { result ≡ job_in text.now }
    ensures count_bound { IfOk result (λ job. job.count ≤ 256) }
{
    let state = read_lines(text)?;
    end_job(state)
}
