// One page's file: FOLDER/page-N.rgba, raw RGBA8 rows.
use crate::bands::{Fault, Sheet};
use crate::{system, telling};
use std::rt::Files;

// page 0, 120x94, out/page-0.rgba: same
pub fn say_page(
    rt: &impl Print,
    sheet: &Sheet<'_>,
    path: &[u8],
    good: &str,
    found: Result<(), Fault>,
) {
    let page = sheet.page.0;
    let w = sheet.size.w;
    let h = sheet.size.h;
    let _ = print!(rt; "page {page}, {w}x{h}, ");
    match found {
        Ok(()) => telling::say_of(rt, path, good),
        Err(fault) => telling::say_of(rt, path, fault),
    }
}

// The file as it lies on disk, against the page.
pub fn check_file(
    rt: &impl Files,
    path: &[u8],
    buf: &mut [u8],
    sheet: &Sheet<'_>,
) -> Result<(), Fault> {
    let mut file = system::open_read(rt, path).ok_or(Fault::Missing)?;
    sheet.check_page(&mut file, buf)
}

// The page composed and written, and then read back from the disk.
pub fn write_file(
    rt: &impl Files,
    path: &[u8],
    buf: &mut [u8],
    sheet: &Sheet<'_>,
) -> Result<(), Fault> {
    let mut file = system::open_overwrite(rt, path).ok_or(Fault::Unwritten)?;
    let written = sheet.write_page(&mut file, buf);
    let closed = system::close_written(file);
    written?;
    closed.map_err(|_| Fault::Unwritten)?;
    check_file(rt, path, buf, sheet)
}
