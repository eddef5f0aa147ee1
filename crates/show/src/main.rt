// Shows a sheet that standard input gives as decimal numbers: its values, its formulas or both axes numbered.
#![tactic(auto)]

mod answer;
mod entry;
mod failure;
mod grid;
mod listing;
mod padded;
mod seeing;
mod table;
#[cfg(test)]
mod tests;
mod values;
mod view;

use crate::answer::see_text;
use crate::view::{NoSuchView, View};
use anyhow::anyhow;
use std::{env, io};

// The view that the first argument names; without one, the values.
fn view_asked(rt: &HostRuntime) -> anyhow::Result<Result<View, NoSuchView>> {
    let word = env::args(rt)?.nth(1);
    Ok(word.map_or(Ok(View::Values), |word| word.as_str().parse()))
}

fn main(rt: HostRuntime) -> anyhow::Result<()> {
    let view = match view_asked(&rt)? {
        Ok(view) => view,
        Err(error) => {
            println!(rt; "usage: show [values | formulas | table] < SHEET")?;
            return Err(error.into());
        }
    };
    let text = io::read_to_string(rt.alloc(), rt.stdin())?;
    match see_text(rt.alloc(), view, text.as_str()) {
        Ok(lines) => {
            print!(rt; "{lines}")?;
            Ok(())
        }
        Err(failure) => {
            println!(rt; "{failure}")?;
            Err(anyhow!("the sheet was refused"))
        }
    }
}
