// The configuration, after texture_packer_config.rs of texture_packer, with the limits of pages and images beside it.
ghost use Rattle.std.specs.Prelude.{◌≡◌, MatchOption, true, false};
ghost use Rattle.geometry.specs.Words.{within};
ghost use Rattle.records.specs.Settings.{in_bounds, blank_config};

#[derive(Clone, Copy, PartialEq, Eq)]
pub struct Config {
    pub maxw: u32,
    pub maxh: u32,
    pub padding: u32,
    pub border: u32,
    pub extrusion: u32,
    pub pages: u32,
    pub images: u32,
    pub rotation: bool,
    pub trim: bool,
    pub outlines: bool,
    pub forced: bool,
}

pub fn is_within(a: u32, b: u32, n: u32) -> bool
    ensures { result ≡ within a b n }
{
    (a..=b).contains(&n)
}

// A configuration that was tested: its numbers are in bounds. Whoever makes one proves it.
#[derive(Clone, Copy)]
pub struct InBounds {
    pub config: Config,
    pub ghost tested: { in_bounds config ≡ true },
}

impl Config {
    #[tactic(auto, unfolding(crate::specs::Settings::in_bounds, geometry::specs::Words::all_of))]
    pub fn in_bounds(self) -> Option<InBounds>
        ensures { MatchOption result (in_bounds self ≡ false) (λ c. c.config ≡ self) }
    {
        let tested = is_within(1, 4096, self.maxw)
            & is_within(1, 4096, self.maxh)
            & (self.padding <= 64)
            & (self.border <= 64)
            & (self.extrusion <= 16)
            & is_within(1, 8, self.pages)
            & is_within(1, 256, self.images);
        if tested {
            return Some(InBounds { config: self });
        }
        None
    }
}

#[tactic(auto, unfolding(crate::specs::Settings::blank_config))]
pub fn blank_config() -> Config
    ensures { result ≡ blank_config }
{
    Config {
        maxw: 0,
        maxh: 0,
        padding: 0,
        border: 0,
        extrusion: 0,
        pages: 0,
        images: 0,
        rotation: false,
        trim: false,
        outlines: false,
        forced: false,
    }
}
