// What the placing rule is told of an image: the box is what trimming keeps.
use art::memory_rgba8_texture::Store;
use geometry::rect::{Rect, Size};
use records::frame::Key;

#[derive(Clone, Copy, PartialEq, Eq)]
pub struct Art {
    pub key: Key,
    pub store: Store,
    pub offset: u32,
    pub whole: Size,
    pub kept: Rect,
}
