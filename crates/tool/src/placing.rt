// What is said of a job that is laid out: where each image stands, and what was refused.
use crate::telling;
use crate::telling::Refused;
use geometry::spot::Turn;
use job::reading::Job;
use laying::Stop;
use records::frame;
use records::frame::Record;
use records::layout::Layout;

fn turn_word(t: Turn) -> &'static str {
    match t {
        Turn::Upright => "upright",
        Turn::Turned => "turned",
    }
}

// image 4: page 0, frame 16x34 at 1,36, turned, trim box 34x16 at 2,8 of 40x32
fn say_record(rt: &impl Print, r: Record) {
    let key = r.key.0;
    let page = r.page.0;
    let frame = r.frame;
    let turn = turn_word(r.turn);
    let trim = frame::box_of(r);
    let whole = frame::whole_of(r);
    let _ = println!(rt;
        "image {key}: page {page}, frame {}x{} at {},{}, {turn}, trim box {}x{} at {},{} of {}x{}",
        frame.w, frame.h, frame.x, frame.y, trim.w, trim.h, trim.x, trim.y, whole.w, whole.h
    );
}

// A line for each image that stands, in the job's order.
pub fn say_places(rt: &impl Print, l: &Layout) {
    for r in l.records.iter().take(l.count) {
        say_record(rt, *r);
    }
}

// The number of the line of the image in a place.
fn line_of(j: &Job, k: usize) -> usize {
    j.entries.get(k).map_or(0, |entry| entry.line)
}

// What was refused.
pub fn say_stop(rt: &impl Print, name: &[u8], j: &Job, s: Stop) {
    let (line, operation, refusal) = match s {
        Stop::AtOpen(refusal) => (j.opened, "open", refusal),
        Stop::AtOffer(k, refusal) => (line_of(j, k), "offer", refusal),
    };
    telling::say_line(rt, name, line, Refused { operation, refusal });
}
