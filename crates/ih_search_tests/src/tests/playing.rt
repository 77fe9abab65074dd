//! Scenes on the ward of two patients, in which two workers search over one book or at one desk.
//!
//! A scene begins with a journal's heading. A line `desk` behind it opens a desk over the book. Each function owns one
//! or two of the values with which a scene is played, and lends them to the next.

ghost use Rattle.std.specs.Prelude.{◌≡◌, []};
ghost use Rattle.ih_plan.specs.Timetable.{IsPlanOf};
ghost use Rattle.ih_cellbook.specs.Keeping.{base_with};
ghost use Rattle.ih_search_tests.specs.Scenes.{IsGiven};

use crate::tests::desk::act_at_desk;
use crate::tests::scenes::{Scene, act_all};
use ih_cellbook::{Book, Buffer, News};
use ih_fixtures::cut;
use ih_journal::parse_head;
use ih_plan::Plan;
use ih_tables::Instance;
use ih_validate::bill;
use std::alloc::Global;
use std::sync::Wait;

// Whether the parts come out so over a book, or at a desk over it.
fn act_over_book<R: Wait>(
    rt: &R,
    alloc: Global,
    scene: &Scene<'_>,
    book: Book<'_>,
    buffer: &mut Buffer,
    news: &mut News,
    parts: &str,
) -> bool
    requires given { IsGiven scene.now.inst.now.draft scene.now.start.now scene.now.options }
    requires base { book.base ≡ base_with scene.now.inst.now.draft scene.now.start.now scene.now.options scene.now.freeze }
    requires empty { book.entries ≡ [] }
{
    let (opened, acts) = cut(parts, "\n");
    if opened == "desk" && scene.freeze == 0 {
        act_at_desk(rt, alloc, scene, book, buffer, acts)
    } else {
        let mut book = book;
        act_all(alloc, scene, &mut book, buffer, news, parts)
    }
}

// Whether the parts come out so over a new book, or at a desk over it.
fn act_over_new<R: Wait>(
    rt: &R,
    alloc: Global,
    scene: &Scene<'_>,
    buffer: &mut Buffer,
    news: &mut News,
    parts: &str,
) -> bool
    requires { IsGiven scene.now.inst.now.draft scene.now.start.now scene.now.options }
{
    let first = bill(scene.inst, scene.start);
    match Book::new(
        alloc,
        scene.inst,
        scene.start,
        &first,
        &scene.options,
        scene.freeze,
    ) {
        Ok(book) => act_over_book(rt, alloc, scene, book, buffer, news, parts),
        Err(_) => false,
    }
}

// Plays some parts with room for copies and news.
fn act_with_room<R: Wait>(rt: &R, alloc: Global, scene: &Scene<'_>, parts: &str) -> bool
    requires { IsGiven scene.now.inst.now.draft scene.now.start.now scene.now.options }
{
    let Ok(mut buffer) = Buffer::new(alloc) else {
        return false;
    };
    match News::new(alloc) {
        Ok(mut news) => act_over_new(rt, alloc, scene, &mut buffer, &mut news, parts),
        Err(_) => false,
    }
}

/// Whether a scene comes out so over this timetable, where days before `freeze` are frozen.
pub(crate) fn comes_out_so<R: Wait>(
    rt: &R,
    alloc: Global,
    inst: &Instance,
    start: &Plan,
    freeze: u32,
    scene: &str,
) -> bool
    requires { IsPlanOf inst.now.draft start.now }
{
    let (heading, lines) = cut(scene, "\n");
    match parse_head(heading.as_bytes()) {
        Some(options) => {
            let scene = Scene {
                inst,
                start,
                options,
                freeze,
            };
            act_with_room(rt, alloc, &scene, lines)
        }
        None => false,
    }
}
