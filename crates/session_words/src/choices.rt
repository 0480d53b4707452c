//! Options as they are read, before what was not given has its default.

ghost use Rattle.std.specs.Prelude.{◌≡◌, [], Some, None, IfOk, option_map, map, string_bytes};
ghost use Rattle.session_words.specs.Asked.{wanted};
ghost use Rattle.session_words.specs.Chosen.{given};
ghost use Rattle.session_words.specs.Words.{is_option, nothing_given, once, order_of, want_of, with_option, with_order, with_want};
ghost use Rattle.session_words.specs.Words.{with_workers, workers_of};

use crate::numbers::{number_in, numbers_in};
use crate::options::{Order, Want};
use std::alloc::{AllocError, Global};

const WANT: &str = "--want";

const WORKERS: &str = "--workers";

const ORDER: &str = "--order";

/// What options gave so far.
#[derive(Drop)]
pub struct Choices {
    pub want: Option<Want>,
    pub workers: Option<u32>,
    pub order: Option<Order>,
}

impl Choices {
    /// Nothing was given.
    pub fn none() -> Choices
        ensures { given result ≡ nothing_given }
    {
        Choices {
            want: None,
            workers: None,
            order: None,
        }
    }

    fn with_want(self, alloc: Global, value: &str) -> Result<Option<Choices>, AllocError>
        ensures { IfOk result (λ choices. option_map given choices ≡ with_want (given self) value.now) }
    {
        if self.want.is_some() {
            return Ok(None);
        }
        match want_of(alloc, value)? {
            None => Ok(None),
            Some(want) => Ok(Some(Choices {
                want: Some(want),
                workers: self.workers,
                order: self.order,
            })),
        }
    }

    fn with_workers(self, value: &str) -> Option<Choices>
        ensures { option_map given result ≡ with_workers (given self) value.now }
    {
        if self.workers.is_some() {
            return None;
        }
        match workers_of(value) {
            None => None,
            Some(workers) => Some(Choices {
                want: self.want,
                workers: Some(workers),
                order: self.order,
            }),
        }
    }

    fn with_order(self, value: &str) -> Option<Choices>
        ensures { option_map given result ≡ with_order (given self) value.now }
    {
        if self.order.is_some() {
            return None;
        }
        match order_of(value) {
            None => None,
            Some(order) => Some(Choices {
                want: self.want,
                workers: self.workers,
                order: Some(order),
            }),
        }
    }

    /// With the option that `word` names, if it was not given yet and `value` is a value of it.
    pub fn with_option(
        self,
        alloc: Global,
        word: &str,
        value: &str,
    ) -> Result<Option<Choices>, AllocError>
        ensures { IfOk result (λ choices. option_map given choices ≡ with_option (given self) word.now value.now) }
    {
        if word == WANT {
            self.with_want(alloc, value)
        } else if word == WORKERS {
            Ok(self.with_workers(value))
        } else {
            Ok(self.with_order(value))
        }
    }
}

/// Whether the word names an option.
pub fn is_option(word: &str) -> bool
    ensures { result ≡ is_option word.now }
{
    word == WANT || word == WORKERS || word == ORDER
}

/// `all`, `none`, or numbers of functions.
fn want_of(alloc: Global, word: &str) -> Result<Option<Want>, AllocError>
    ensures { IfOk result (λ want. option_map wanted want ≡ want_of word.now) }
{
    if word == "all" {
        return Ok(Some(Want::All));
    }
    if word == "none" {
        return Ok(Some(Want::Nothing));
    }
    match numbers_in(alloc, word.as_bytes())? {
        None => Ok(None),
        Some(numbers) => Ok(Some(Want::Numbers(numbers))),
    }
}

/// How many workers the word says: from 1 to 16.
pub fn workers_of(word: &str) -> Option<u32>
    ensures { result ≡ workers_of word.now }
{
    number_in(1, 16, word.as_bytes())
}

fn order_of(word: &str) -> Option<Order>
    ensures { result ≡ order_of word.now }
{
    if word == "first" {
        Some(Order::First)
    } else if word == "large" {
        Some(Order::Large)
    } else if word == "reverse" {
        Some(Order::Reverse)
    } else {
        None
    }
}
