// The operations that ask the placing rule, after multi_texture_packer.rs of texture_packer: ask, offer, withdraw. Each takes any layout, numbers
// and bytes.
ghost use Rattle.std.specs.Prelude.{◌≡◌, List, ◌≤◌, ◌<◌, ◌-◌, get_or, IfOk};
ghost use Rattle.geometry.specs.Placing.{is_found};
ghost use Rattle.art.specs.Stores.{lent};
ghost use Rattle.records.specs.Settings.{blank_record};
ghost use Rattle.records.specs.Refusals.{first_refusal};
ghost use Rattle.records.specs.declared.frame.Record.{Record};
ghost use Rattle.rules.specs.Placing.{spot_on, cells_on};
ghost use Rattle.rules.specs.Operations.{asked, ask_answer, asked_numbers, offered, offered_numbers, withdraw_refusal, withdrawn, withdrawn_numbers, without_latest};
ghost use Rattle.faithful.specs.Replay.{Skies};
ghost use Rattle.offers.specs.Offers.{unless};
ghost use Rattle.layout.specs.Rest.{ask_rest};

use art::memory_rgba8_texture::{Image, Stores};
use faithful::{placing, trust};
use geometry::rect::Size;
use pages::Pages;
use records::frame;
use records::frame::{Key, Page};
use records::layout::{Answered, Layout, WellFormed};
use records::refusal::Refusal;
use records::texture_packer_config::InBounds;
use rules::multi_texture_packer::{Asked, Offering, Withdrawing, Withdrawn};

// The width of pages that the replay makes anew before it places anything.
const ANY: u32 = 1;

// The checks of ask past 2 and 3, and the page's answer.
fn ask_on(skies: &Pages, c: InBounds, pages: usize, page: Page, size: Size) -> Asked
    requires c_value { pages ≤ 8 }
    requires skies { (rs : List Record) × Skies c.config rs pages skies.now }
    ensures { (rs : List Record) → Skies c.config rs pages skies.now →
        result ≡ ask_answer (is_found (spot_on c.config (cells_on c.config rs page.0) size)) (first_refusal (ask_rest rs page size)) }
{
    if offers::bad_size(size.w, size.h) {
        return Err(Refusal::BadSize);
    }
    let p = page.0 as usize;
    if pages <= p {
        return Err(Refusal::NoSuchPage);
    }
    let area = placing::canvas_of(c);
    let cell = placing::cell_size(c, size);
    Ok(skies.can_pack_on(p, area, c.config.rotation, cell))
}

// ask: 2 3 4 11
pub fn ask(l: Layout, page: Page, size: Size) -> Asked
    ensures value { result ≡ asked l page size }
    ensures result_value { asked_numbers result ≡ asked_numbers (asked l page size) }
{
    let mut skies = Pages::new(ANY);
    let pages = trust::trusted(l, &mut skies)?;
    // `trusted` asked whether it is well-formed, so that the proof has it here and below.
    let tested = WellFormed { layout: &l };
    ask_on(&skies, tested.config(), pages, page, size)
}

// offer: 2 3 4 5 6 7 8 9 10
pub fn offer(l: Layout, stores: Stores<'_>, key: Key, image: Image) -> Offering
    ensures value { result ≡ offered l (lent stores.entry) key image }
    ensures answer_value { offered_numbers result.answer ≡ offered_numbers (offered l (lent stores.entry) key image).answer }
{
    let mut skies = Pages::new(ANY);
    match trust::trusted(l, &mut skies) {
        Ok(pages) => {
            let tested = WellFormed { layout: &l };
            offers::offer_on(&mut skies, tested, pages, stores, key, image)
        }
        Err(refusal) => Answered {
            answer: Err(refusal),
            layout: l,
        },
    }
}

fn without_latest(mut l: Layout) -> Layout
    requires { (0 < l.count) × (l.count ≤ 256) }
    ensures { result ≡ without_latest l }
{
    let at = l.count - 1;
    l.records[at] = frame::blank_record();
    l.count = at;
    l
}

// The checks of a withdrawal, and the key of the record that it takes away.
fn latest_key(l: Layout) -> Withdrawn
    ensures is { result ≡ unless (get_or l.records (l.count - 1) blank_record).key (withdraw_refusal l) }
    ensures some { IfOk result (λ k. (0 < l.count) × (l.count ≤ 256)) }
{
    let mut skies = Pages::new(ANY);
    trust::trusted(l, &mut skies)?;
    let tested = WellFormed { layout: &l };
    let standing = tested.standing();
    let latest = standing.last().ok_or(Refusal::NothingStands)?;
    Ok(latest.key)
}

// withdraw latest: 2 3 18
pub fn withdraw(l: Layout) -> Withdrawing
    ensures value { result ≡ withdrawn l }
    ensures answer_value { withdrawn_numbers result.answer ≡ withdrawn_numbers (withdrawn l).answer }
{
    match latest_key(l) {
        Ok(key) => Answered {
            answer: Ok(key),
            layout: without_latest(l),
        },
        Err(refusal) => Answered {
            answer: Err(refusal),
            layout: l,
        },
    }
}
