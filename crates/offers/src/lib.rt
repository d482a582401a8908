// An offer on the skylines that the standing records left: the checks past 2 and 3, and the step of the placing rule.
#![tactic(auto)]

ghost use Rattle.std.specs.Prelude.{◌≡◌, List, ◌≤◌, ◌<◌, IfOk};
ghost use Rattle.art.specs.Stores.{lent, InStore};
ghost use Rattle.records.specs.Records.{size_of};
ghost use Rattle.records.specs.Layouts.{standing};
ghost use Rattle.records.specs.Refusals.{first_refusal};
ghost use Rattle.records.specs.declared.frame.Record.{Record};
ghost use Rattle.rules.specs.Placing.{placed};
ghost use Rattle.rules.specs.Operations.{bad_size, art_for, fits_empty, too_large, with_record, offer_answer};
ghost use Rattle.faithful.specs.Replay.{Sized, Skies, SomeSkies};
ghost use Rattle.offers.specs.Offers.{Stepped, kept_of, unless, art_rest, offer_rest, record_answer};

use art::memory_rgba8_texture::{Image, Stores};
use art::{memory_rgba8_texture, trim};
use faithful::placing;
use geometry::rect::{Rect, Size};
use geometry::spot;
use geometry::spot::Turn;
use pages::Pages;
use records::frame::{Key, Record};
use records::layout::{Answered, Layout, WellFormed};
use records::refusal::Refusal;
use records::texture_packer_config;
use records::texture_packer_config::InBounds;
use rules::multi_texture_packer::{Offering, Place};
use rules::placing::Art;

#[tactic(auto, unfolding(rules::specs::Operations::bad_size))]
pub fn bad_size(w: u32, h: u32) -> bool
    ensures { result ≡ bad_size w h }
{
    !(texture_packer_config::is_within(1, 2048, w) && texture_packer_config::is_within(1, 2048, h))
}

#[tactic(auto, unfolding(rules::specs::Operations::fits_empty))]
fn fits_empty(area: Size, s: Size) -> bool
    ensures { result ≡ fits_empty area s }
{
    s.w <= area.w && s.h <= area.h
}

// 8: by the sides alone, before any page is asked.
fn too_large(c: InBounds, s: Size) -> bool
    requires { Sized s }
    ensures { result ≡ too_large c.config s }
{
    let area = placing::canvas_of(c);
    let cell = placing::cell_size(c, s);
    let upright = fits_empty(area, cell);
    let turned = fits_empty(area, spot::lying_size(Turn::Turned, cell));
    !(upright | (c.config.rotation & turned))
}

#[tactic(auto, unfolding(crate::specs::Offers::kept_of, art::specs::Trimming::whole_box))]
fn kept_box(trim: bool, stores: Stores<'_>, image: Image) -> Option<Rect>
    requires { InStore (lent stores) image }
    ensures { result ≡ kept_of trim (lent stores.entry) image }
{
    if trim {
        trim::trim_texture(stores, image)
    } else {
        Some(Rect::new(0, 0, image.w, image.h))
    }
}

// The checks 4 to 7, and the image as it is placed.
fn checked_art(
    l: WellFormed<'_>,
    stores: Stores<'_>,
    key: Key,
    image: Image,
) -> Result<Art, Refusal>
    ensures is { result ≡ unless (art_for l.entry.layout.now.config (lent stores.entry) key image)
        (first_refusal (art_rest l.entry.layout.now (lent stores.entry) key image)) }
    ensures sized { IfOk result (λ a. Sized a.whole × Sized (size_of a.kept)) }
{
    if bad_size(image.w, image.h) {
        return Err(Refusal::BadSize);
    }
    if memory_rgba8_texture::runs_past(stores, image) {
        return Err(Refusal::PastStore);
    }
    if l.named(key).is_some() {
        return Err(Refusal::KeyStands);
    }
    let kept = kept_box(l.layout.config.trim, stores, image).ok_or(Refusal::AllClear)?;
    Ok(Art {
        key,
        store: image.store,
        offset: image.offset,
        whole: Size {
            w: image.w,
            h: image.h,
        },
        kept,
    })
}

// One step of the placing rule: its page, and there the trimmed cell, on the skylines of the records so far.
fn place_art(skies: &mut Pages, c: InBounds, pages: usize, a: Art) -> Result<Record, Refusal>
    requires c_value { (pages ≤ 8) × Sized a.whole × Sized (size_of a.kept) }
    requires some_skies { SomeSkies c.config pages skies.old }
    ensures { (rs : List Record) → Skies c.config rs pages skies.old →
        Stepped c.config rs a result skies.new }
{
    let p = placing::page_for(skies, c, pages, a.whole);
    if c.config.pages as usize <= p {
        return Err(Refusal::PageLimit);
    }
    let f = placing::pack(skies, c, p, a.kept);
    placing::record_for(c, a, p as u32, f)
}

// The checks from 4 on, and the record that the image gets.
fn record_of_offer(
    skies: &mut Pages,
    l: WellFormed<'_>,
    pages: usize,
    stores: Stores<'_>,
    key: Key,
    image: Image,
) -> Result<Record, Refusal>
    requires { Skies l.layout.now.config (standing l.layout.now) pages skies.old }
    ensures is { result ≡ record_answer (placed l.entry.layout.now.config (standing l.entry.layout.now)
        (art_for l.entry.layout.now.config (lent stores.entry) key image))
        (first_refusal (offer_rest l.entry.layout.now (lent stores.entry) key image)) }
    ensures room { IfOk result (λ r. l.entry.layout.now.count < 256) }
{
    let c = l.config();
    let a = checked_art(l, stores, key, image)?;
    if too_large(
        c,
        Size {
            w: a.kept.w,
            h: a.kept.h,
        },
    ) {
        return Err(Refusal::TooLarge);
    }
    if c.config.images as usize <= l.layout.count {
        return Err(Refusal::ImageLimit);
    }
    place_art(skies, c, pages, a)
}

#[tactic(auto, unfolding(rules::specs::Operations::with_record))]
fn with_record(mut l: Layout, r: Record) -> Layout
    requires { l.count < 256 }
    ensures { result ≡ with_record l r }
{
    l.records[l.count] = r;
    l.count += 1;
    l
}

// The checks from 4 on.
pub fn offer_on(
    skies: &mut Pages,
    l: WellFormed<'_>,
    pages: usize,
    stores: Stores<'_>,
    key: Key,
    image: Image,
) -> Offering
    requires { Skies l.layout.now.config (standing l.layout.now) pages skies.old }
    ensures { result ≡ offer_answer l.entry.layout.now
        (placed l.entry.layout.now.config (standing l.entry.layout.now)
        (art_for l.entry.layout.now.config (lent stores.entry) key image))
        (first_refusal (offer_rest l.entry.layout.now (lent stores.entry) key image)) }
{
    match record_of_offer(skies, l, pages, stores, key, image) {
        Ok(r) => {
            let place = Place {
                page: r.page,
                frame: r.frame,
                turn: r.turn,
            };
            Answered {
                answer: Ok(place),
                layout: with_record(*l.layout, r),
            }
        }
        Err(refusal) => Answered {
            answer: Err(refusal),
            layout: *l.layout,
        },
    }
}
