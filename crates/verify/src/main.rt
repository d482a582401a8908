// Verifies packed jobs: docs/JOB.md. `verify JOB SYMBOLS WORDING FOLDER` checks FOLDER/page-0.rgba and so on, as they lie on disk.
#![tactic(auto)]

use tool::driving;
use tool::driving::Program;

fn main(rt: HostRuntime) {
    driving::run(&rt, Program::Verify);
}
