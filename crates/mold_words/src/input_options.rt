//! Reads the values of the options of `mold check` and `mold extract`.

ghost use Rattle.std.specs.Prelude.{◌≡◌, MatchResult, Some};
ghost use Rattle.clap.specs.Words.{found_of, rows_of};
ghost use Rattle.mold_words.specs.Arguments.{input_view, judging_view};
ghost use Rattle.mold_words.specs.NoOrders.{LacksOrder, LacksValue};
ghost use Rattle.mold_words.specs.Orders.{form_in, input_in, judging_in};

use crate::capture_options::{captures_in, check_unfiltered, is_given};
use crate::extract_form::ExtractForm;
use crate::input_order::InputOrder;
use crate::judging::Judging;
use crate::no_order::NoOrder;
use crate::options::{flag_in, text_in};
use clap::ArgMatches;
use std::alloc::Global;

/// Returns where datagrams are read.
#[tactic(auto, unfolding(crate::specs::Orders::input_in))]
pub(crate) fn input_in(alloc: Global, options: &ArgMatches<'_>) -> Result<InputOrder, NoOrder>
    ensures { MatchResult result
        (λ input. input_in (rows_of (found_of options.now)) ≡ Some (input_view input))
        (LacksOrder (input_in (rows_of (found_of options.now)))) }
{
    if is_given(options, "capture") {
        if is_given(options, "folder") {
            return Err(NoOrder::FolderWithCapture);
        }
        return Ok(InputOrder::Captures(captures_in(alloc, options)?));
    }
    check_unfiltered(options)?;
    let Some(folder) = text_in(options, "folder") else {
        return Err(NoOrder::NoFolder);
    };
    if folder == "-" {
        return Ok(InputOrder::Lines);
    }
    Ok(InputOrder::Folder(String::from_str(alloc, folder)?))
}

/// Returns how datagrams are judged.
#[tactic(auto, unfolding(crate::specs::Orders::judging_in))]
pub(crate) fn judging_in(alloc: Global, options: &ArgMatches<'_>) -> Result<Judging, NoOrder>
    ensures { MatchResult result
        (λ judging. judging_in (rows_of (found_of options.now)) ≡ Some (judging_view judging))
        (LacksOrder (judging_in (rows_of (found_of options.now)))) }
{
    let each = flag_in(options, "each");
    let digest = flag_in(options, "digest");
    let Some(journal) = text_in(options, "journal") else {
        return Ok(if each {
            Judging::Each { digest }
        } else {
            Judging::Whole { digest }
        });
    };
    if each {
        return Err(NoOrder::Both {
            first: "journal",
            second: "each",
        });
    }
    if digest {
        return Err(NoOrder::Both {
            first: "journal",
            second: "digest",
        });
    }
    Ok(Judging::Save {
        journal: String::from_str(alloc, journal)?,
    })
}

/// Returns the form in which messages are written.
#[tactic(auto, unfolding(crate::specs::Orders::form_in))]
pub(crate) fn form_in(options: &ArgMatches<'_>) -> Result<ExtractForm, NoOrder>
    ensures { MatchResult result
        (λ form. form_in (rows_of (found_of options.now)) ≡ Some form)
        (LacksValue (form_in (rows_of (found_of options.now)))) }
{
    match (flag_in(options, "blocks"), flag_in(options, "lines")) {
        (true, false) => Ok(ExtractForm::Blocks),
        (false, true) => Ok(ExtractForm::Lines),
        (true, true) => Err(NoOrder::Both {
            first: "blocks",
            second: "lines",
        }),
        (false, false) => Err(NoOrder::NoForm),
    }
}
