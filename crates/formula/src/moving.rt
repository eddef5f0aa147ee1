// A formula rewritten where it stands, token by token, as its references and ranges move.
ghost use Rattle.std.specs.Prelude.{◌≡◌, Option};
ghost use Rattle.std.specs.Option.{option_map};
ghost use Rattle.formula.specs.declared.token.CellRef.{CellRef};
ghost use Rattle.formula.specs.declared.token.Range.{Range};
ghost use Rattle.formula.specs.Reading.{spelled};
ghost use Rattle.formula.specs.Moving.{moved_token, moved_formula, moved_row};

use crate::layout::TOKEN_LEN;
use crate::reading::read_token;
use crate::token::{CellRef, Range, Token};

// Where a reference and a range go; None where they are lost.
pub trait Moves {
    ghost moved: { Self → CellRef → Option CellRef };

    ghost resized: { Self → Range → Option Range };

    fn reference(&self, cell: CellRef) -> Option<CellRef>
        ensures { result ≡ moved self.now cell };

    fn range(&self, range: Range) -> Option<Range>
        ensures { result ≡ resized self.now range };
}

// What is lost stays lost.
fn move_token<M: Moves>(token: Token, moves: &M) -> Token
    ensures { result ≡ moved_token (M.moved moves.now) (M.resized moves.now) token }
{
    match token {
        Token::Cell(Some(cell)) => Token::Cell(moves.reference(cell)),
        Token::Fold(aggregate, Some(range)) => Token::Fold(aggregate, moves.range(range)),
        _ => token,
    }
}

// Every token up to the first that is none; what the row spells is rewritten with it.
pub fn rewrite<M: Moves>(tokens: &mut [u64], moves: &M)
    ensures row { tokens.new ≡ moved_row (M.moved moves.now) (M.resized moves.now) tokens.old }
    ensures formula { spelled tokens.new ≡ option_map (moved_formula (M.moved moves.now) (M.resized moves.now)) (spelled tokens.old) }
{
    let Some((token, _)) = read_token(tokens) else {
        return;
    };
    let numbers = <[u64; TOKEN_LEN]>::from(move_token(token, moves));
    tokens[0..TOKEN_LEN].copy_from_slice(&numbers);
    rewrite(&mut tokens[TOKEN_LEN..], moves);
}
