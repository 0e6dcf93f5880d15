// The path of the file that has a target's letters, as the words of a command line give it.
ghost use Rattle.std.specs.Prelude.{◌≡◌};
ghost use Rattle.normalize.specs.Paths.{path_of};

use asking::requests;

// The path of the file that words name: empty where they name none.
#[tactic(auto, unfolding(crate::specs::Paths::path_of))]
pub(crate) fn path_of(text: &[u8]) -> &[u8]
    ensures { result.now ≡ path_of text.now }
{
    match requests::request_of(text) {
        Ok(request) => requests::given(text, request.words.file),
        Err(_) => &text[..0],
    }
}
