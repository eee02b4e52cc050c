// Which terms a variable may stand for.
ghost use Rattle.std.specs.Prelude.{◌≡◌};
ghost use Rattle.matching.specs.Code.Step.{symbol_term, single_one, may_stand};

use file::Term;

// May an s. variable stand for this term?
fn is_symbol(term: Term) -> bool
    ensures { result ≡ symbol_term term }
{
    matches!(term, Term::Symbol(_) | Term::SVariable(_, _))
}

// May a t. variable stand for this term? An e. variable is never a single term.
fn is_single(term: Term) -> bool
    ensures { result ≡ single_one term }
{
    matches!(
        term,
        Term::Symbol(_) | Term::SVariable(_, _) | Term::TVariable(_, _) | Term::Bracket
    )
}

// May an s. or t. variable stand for this term?
pub fn may_stand(variable: Term, term: Term) -> bool
    ensures { result ≡ may_stand variable term }
{
    match variable {
        Term::SVariable(_, _) => is_symbol(term),
        Term::TVariable(_, _) => is_single(term),
        _ => false,
    }
}
