// Packs jobs: docs/JOB.md. `pack JOB SYMBOLS WORDING FOLDER` writes FOLDER/page-0.rgba and so on.
#![tactic(auto)]

use tool::driving;
use tool::driving::Program;

fn main(rt: HostRuntime) {
    driving::run(&rt, Program::Pack);
}
