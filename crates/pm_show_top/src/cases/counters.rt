//! The counters that a run ends with.

ghost use Rattle.std.specs.Prelude.{◌<◌, length};

use crate::common::fresh_book;
use anyhow::Result;
use pm_base::{DevId, PLAN_BYTES};
use pm_book::Book;
use pm_cmd_ends::Fault;
use pm_io::{Files, read_all};
use pm_model::LinkRow;
use pm_planread::read_plan;
use pm_serial::{drain, fresh_books_have_time};
use std::alloc::{AllocError, Global};

/// The counters of each device after the run of the plan in the file, and what is kept of each link, a line
/// each.
pub fn counters_text<F: Files>(alloc: Global, plan: &str, files: &mut F) -> Result<String> {
    let mut text = String::new(alloc);
    match book_of(alloc, plan, files) {
        Ok(book) => {
            push_devices(&mut text, &book)?;
            push_links(&mut text, &book)?;
        }
        Err(_) => write!(text, "no run of it")?,
    }
    Ok(text)
}

/// The book of the plan's run on one thread.
fn book_of<F: Files>(alloc: Global, plan: &str, files: &mut F) -> Result<Book, Fault> {
    let bytes = read_all(alloc, files, plan, PLAN_BYTES)?;
    let mut book = fresh_book(alloc, read_plan(alloc, &bytes)?)?;
    fresh_books_have_time();
    let _end = drain(&mut book)?;
    Ok(book)
}

/// Appends the counters of each device.
fn push_devices(text: &mut String, book: &Book) -> Result<(), AllocError> {
    for place in 0..book.plan().devices.len() {
        push_device(text, book, DevId(place as u32))?;
    }
    Ok(())
}

/// Appends the counters of a device.
fn push_device(text: &mut String, book: &Book, dev: DevId) -> Result<(), AllocError>
    requires { dev.0 < length book.now.plan.devices }
{
    let parts = book.parts();
    let device = parts.device(dev);
    let (pending, timer) = (parts.pending(dev), parts.timer(dev));
    let (children, off) = (parts.children(dev), parts.up_count(book.plan(), dev));
    let place = dev.0;
    write!(
        text,
        "{place}: {device:?}, {pending:?}, timer {timer:?}, children {children}, domains_off {off}\n"
    )
}

/// Appends what is kept of each link.
fn push_links(text: &mut String, book: &Book) -> Result<(), AllocError> {
    for link in book.plan().links.as_slice() {
        push_link(text, book, link)?;
    }
    Ok(())
}

/// Appends what is kept of a link.
fn push_link(text: &mut String, book: &Book, link: &LinkRow) -> Result<(), AllocError> {
    let (parts, plan) = (book.parts(), book.plan());
    let held = parts.is_held(plan, link.consumer, link.supplier);
    let present = parts.is_present(plan, link.consumer, link.supplier);
    write!(text, "link: held {held}, present {present}\n")
}
