ghost use Rattle.std.specs.Prelude.{◌≡◌, ◌≤◌, [], length};
ghost use Rattle.snd_tokens.specs.Terms.{tokens_from};
ghost use Rattle.tree_reader.specs.ReportEnds.{end_after};

use snd_tokens::next_token;

/// The place after the last token of a report's text, its last parenthesis, from where `read_tree` reads the comment lines below; 0 where
/// there is no token. It goes over the bytes once, and asks for no memory.
///
/// ```text
/// let report = read_report(alloc, &net, &states, bytes)?;
/// let tree = read_tree(alloc, &net, &states, &plan.demands, bytes, report_end(bytes))?;
/// ```
pub fn report_end(bytes: &[u8]) -> u64
    ensures value { result ≡ end_after 0 (tokens_from 0 bytes.now) }
    // No token begins there or later.
    ensures last { tokens_from result bytes.now ≡ [] }
    ensures within { result ≤ length bytes.now }
{
    let mut end = 0;
    while let Some(token) = next_token(bytes, end) {
        end = token.at + token.len;
    }
    end
}
