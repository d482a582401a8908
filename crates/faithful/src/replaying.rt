// The replay of the standing records: whether the placing rule gives each its page, place and turn. It hands on the skylines that it built.
ghost use Rattle.std.specs.Prelude.{◌≡◌, true, List, ◌+◌, ◌≤◌, ◌<◌, max, length};
ghost use Rattle.records.specs.Records.{record_well_formed};
ghost use Rattle.records.specs.Layouts.{standing};
ghost use Rattle.records.specs.declared.frame.Record.{Record};
ghost use Rattle.rules.specs.Placing.{record_for};
ghost use Rattle.rules.specs.Faithful.{art_of, same_spot};
ghost use Rattle.faithful.specs.Replay.{Skies, SomeSkies, Replayed, Ran};

use crate::placing;
use geometry::spot::Spot;
use pages::Pages;
use records::frame;
use records::frame::Record;
use records::layout::WellFormed;
use records::texture_packer_config::InBounds;

// Whether a spot on the record's page is the record's.
fn same_spot(c: InBounds, r: Record, f: Option<Spot>) -> bool
    requires { record_well_formed c.config r ≡ true }
    ensures { result ≡ same_spot r (record_for c.config (art_of r) r.page.0 f) }
{
    let b = c.config.border;
    match f {
        None => false,
        Some(k) => (r.frame.x - b, r.frame.y - b, r.turn) == (k.at.x, k.at.y, k.turn),
    }
}

// Whether the rule puts the next record where it is; if so, the skylines have it.
fn replay_one(skies: &mut Pages, c: InBounds, pages: usize, r: Record) -> bool
    requires c_value { (record_well_formed c.config r ≡ true) × (pages ≤ 8) }
    requires some_skies { SomeSkies c.config pages skies.old }
    ensures { (rs : List Record) → Skies c.config rs pages skies.old →
        Replayed c.config rs r result skies.new }
{
    let p = placing::page_for(skies, c, pages, frame::whole_of(r));
    if r.page.0 as usize != p {
        return false;
    }
    let f = placing::pack(skies, c, p, frame::box_of(r));
    same_spot(c, r, f)
}

// The standing records placed again, one after the other, on empty pages: how many pages there are, if every record stands where the rule
// puts it.
pub fn replay(l: WellFormed<'_>, skies: &mut Pages) -> Option<usize>
    ensures { Ran l.entry.layout.now result skies.new }
{
    let c = l.config();
    skies.fresh(c.config.maxw);
    let mut pages = 0;
    for r in l.standing() {
        if !replay_one(skies, c, pages, *r) {
            return None;
        }
        pages = pages.max(r.page.0 as usize + 1);
    }
    Some(pages)
}
