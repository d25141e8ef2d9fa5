// How many documents match a question.
ghost use Rattle.std.specs.Prelude.{◌≡◌, length};
ghost use Rattle.pages.specs.Lists.{those};
ghost use Rattle.questions.specs.Query.{matches};
ghost use Rattle.matching.specs.View.{query_of};

use crate::document::Document;
use matching::Query;

// So many documents of a list match.
pub fn count(query: &Query, among: &[Document]) -> u64
    ensures { result ≡ length (those (λ d. matches d (query_of query.now)) among.now) }
{
    among
        .iter()
        .filter(|document| document.matches(query))
        .count() as u64
}
