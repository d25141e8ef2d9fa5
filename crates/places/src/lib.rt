// Where the words of a document stand, as sorted rows in lent memory: one number for each word.
#![tactic(auto)]

mod laws;
mod sort;
mod token;
mod tokens;

pub use laws::places_stand;
pub use sort::place_words;
pub use token::Token;
pub use tokens::index_words;

#[cfg(test)]
mod tests {
    use super::*;
    use documents::Texts;

    #[test]
    fn words_in_order_of_their_rows(rt: HostRuntime) {
        let texts = Texts {
            title: b"The end",
            body: b"an END, the ant",
        };
        let mut tokens = [7; 6];
        let mut scratch = [0; 6];
        assert_eq!(rt; place_words(texts, &mut tokens, &mut scratch), Some(6));
        assert_eq!(rt; Token::from(tokens[0]).word(texts), b"an".as_slice());
        assert_eq!(rt; Token::from(tokens[1]).word(texts), b"ant".as_slice());
        assert_eq!(rt; Token::from(tokens[1]).place(), 32771);
        assert_eq!(rt; Token::from(tokens[2]).place(), 1);
        assert_eq!(rt; Token::from(tokens[3]).place(), 32769);
        assert_eq!(rt; Token::from(tokens[4]).word(texts), b"The".as_slice());
        assert_eq!(rt; Token::from(tokens[3]).row(texts, 9).key.len(), 3);
    }

    #[test]
    fn too_little_memory_is_refused(rt: HostRuntime) {
        let long = Texts {
            title: b"one two",
            body: b"three",
        };
        let short = Texts {
            title: b"one",
            body: b"two",
        };
        let mut tokens = [7; 2];
        let mut scratch = [0; 1];
        assert_eq!(rt; index_words(long, &mut tokens), None);
        assert_eq!(rt; tokens[0], 7);
        assert_eq!(rt; place_words(short, &mut tokens, &mut scratch), None);
        assert_eq!(rt; tokens[0], 7);
        assert_eq!(rt; index_words(short, &mut tokens), Some(2));
        assert_eq!(rt; tokens[1], 32768);
    }
}
