// 2 and 3 of every operation that asks them, for every layout: well-formed, keys that differ, whole boxes where nothing is trimmed, and the
// replay. Where all hold, the skylines are handed on.
ghost use Rattle.std.specs.Prelude.{◌≡◌, map, ◌≤◌, length, take, drop, eqb};
ghost use Rattle.geometry.specs.Words.{all, any};
ghost use Rattle.records.specs.Layouts.{standing};
ghost use Rattle.rules.specs.Faithful.{keys_differ, whole_if_untrimmed};
ghost use Rattle.faithful.specs.Replay.{distinct, key_of, Tested, Trusted};

use crate::replaying;
use geometry::rect::Rect;
use pages::Pages;
use records::frame;
use records::frame::Record;
use records::layout::{Layout, WellFormed};
use records::refusal::Refusal;
use records::texture_packer_config::Config;

fn all_differ(keys: &[u32]) -> bool
    ensures { result ≡ distinct keys.now }
{
    for (i, key) in keys.iter().enumerate() {
        if keys[i + 1..].contains(key) {
            return false;
        }
    }
    true
}

// The keys of some records, in order: 1 KB to compare instead of 13.
fn copy_keys(records: &[Record], keys: &mut [u32])
    requires { length records.now ≤ length keys.old }
    ensures { take (length records.now) keys.new ≡ map key_of records.now }
{
    for (i, r) in records.iter().enumerate() {
        keys[i] = r.key.0;
    }
}

fn keys_differ(l: WellFormed<'_>) -> bool
    ensures { result ≡ keys_differ (standing l.entry.layout.now) }
{
    let standing = l.standing();
    let mut keys = [0u32; 256];
    copy_keys(standing, &mut keys);
    all_differ(&keys[..standing.len()])
}

#[tactic(auto, unfolding(rules::specs::Faithful::whole_if_untrimmed, geometry::specs::Words::all_of, records::specs::Records::whole_of))]
fn whole_if_untrimmed(c: Config, r: Record) -> bool
    ensures { result ≡ whole_if_untrimmed c r }
{
    let s = frame::whole_of(r);
    c.trim || frame::box_of(r) == Rect::new(0, 0, s.w, s.h)
}

fn all_whole(l: WellFormed<'_>) -> bool
    ensures { result ≡ all (whole_if_untrimmed l.entry.layout.now.config) (standing l.entry.layout.now) }
{
    let c = l.layout.config;
    l.standing().iter().all(|r| whole_if_untrimmed(c, *r))
}

// The number of the layout's pages if it is faithful, and their skylines.
fn is_faithful(l: WellFormed<'_>, skies: &mut Pages) -> Option<usize>
    ensures { Tested l.entry.layout.now result skies.new }
{
    if !keys_differ(l) || !all_whole(l) {
        return None;
    }
    replaying::replay(l, skies)
}

pub fn trusted(l: Layout, skies: &mut Pages) -> Result<usize, Refusal>
    ensures { Trusted l result skies.new }
{
    let l = l.well_formed().ok_or(Refusal::NotWellFormed)?;
    is_faithful(l, skies).ok_or(Refusal::NotFaithful)
}
