ghost use Rattle.std.specs.Prelude.{◌≡◌, IfOk};
ghost use Rattle.hal_script.specs.DataTexts.{given};

use crate::piece::{Piece, first_piece};
use exec_model::Datum;
use hal_values::Listing;
use std::alloc::{AllocError, Global};

/// What the text of an INPUT line gives.
#[derive(Drop)]
pub enum Given {
    /// These data, in order.
    Data(Listing<Datum>),
    /// Nothing: a closing quote stands directly before another byte than a blank or a comma.
    Malformed,
    /// Nothing: a quote isn't closed.
    Open,
}

/// The data of a text, which blanks and commas part. A datum whose first byte is a quote goes on to the closing
/// quote, and may hold blanks and commas; a doubled quote in it is one.
#[tactic(auto, using(crate::proofs::DataPieces::before_none, crate::proofs::DataPieces::before_more))]
pub fn read_data(alloc: Global, text: &[u8]) -> Result<Given, AllocError>
    ensures { IfOk result (λ gift. gift ≡ given text.now) }
{
    let mut data = Vec::new(alloc);
    let mut rest = text;
    while let Some((first, after)) = rest.split_first() {
        let (piece, behind) = first_piece(alloc, *first, after)?;
        match piece {
            Piece::Gap => {}
            Piece::Datum(datum) => data.push(datum)?,
            Piece::Malformed => return Ok(Given::Malformed),
            Piece::Open => return Ok(Given::Open),
        }
        rest = behind;
    }
    Ok(Given::Data(Listing::new(data)))
}
