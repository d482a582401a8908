// A job laid out: open, then an offer for each of its images, in its order; the first refusal ends it.
#![tactic(auto)]

ghost use Rattle.std.specs.Prelude.{◌≡◌};
ghost use Rattle.art.specs.Stores.{lent};
ghost use Rattle.laying.specs.Laying.{offered_one, offering, wanted, laid_out};

use art::memory_rgba8_texture::Stores;
use job::reading::{Entry, Job};
use layout::multi_texture_packer;
use records::layout as layouts;
use records::layout::{Answered, Layout};
use records::refusal::Refusal;

// Where a refusal ends it.
#[derive(Clone, Copy)]
pub enum Stop {
    AtOpen(Refusal),
    // The place of the refused image among the job's.
    AtOffer(usize, Refusal),
}

pub type Laid = Answered<Result<(), Stop>>;

// One image offered. A refused offer hands the layout back as it was.
#[tactic(auto, unfolding(crate::specs::Laying::offered_one))]
fn offer_one(l: Layout, stores: Stores<'_>, k: usize, entry: Entry) -> Laid
    ensures { result ≡ offered_one (lent stores.entry) k l entry }
{
    let offer = multi_texture_packer::offer(l, stores, entry.key, entry.image);
    Answered {
        answer: offer
            .answer
            .map(|_| ())
            .map_err(|refusal| Stop::AtOffer(k, refusal)),
        layout: offer.layout,
    }
}

fn offer_all(l: Layout, stores: Stores<'_>, j: Job) -> Laid
    ensures { result ≡ offering (lent stores.entry) 0 l (wanted j) }
{
    let mut layout = l;
    for (k, entry) in j.entries.iter().take(j.count).enumerate() {
        let next = offer_one(layout, stores, k, *entry);
        if next.answer.is_err() {
            return next;
        }
        layout = next.layout;
    }
    Answered {
        answer: Ok(()),
        layout,
    }
}

#[tactic(auto, unfolding(crate::specs::Laying::laid_out))]
pub fn lay_out(stores: Stores<'_>, j: Job) -> Laid
    ensures { result ≡ laid_out (lent stores.entry) j }
{
    let opening = layouts::open(j.config);
    match opening.answer {
        Err(refusal) => Answered {
            answer: Err(Stop::AtOpen(refusal)),
            layout: opening.layout,
        },
        Ok(()) => offer_all(opening.layout, stores, j),
    }
}
