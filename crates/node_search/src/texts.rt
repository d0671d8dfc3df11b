// The text at an index, of those that two arrays hold as places and lengths in the table's bytes; no bytes past the arrays' end.
ghost use Rattle.std.specs.Prelude.{◌≡◌, ◌≤◌, length};
ghost use Rattle.node_search.specs.Arrays.{text_in};

// The i-th of the texts.
#[tactic(auto, unfolding(crate::specs::Arrays::text_in))]
pub fn text_at<'a, const N: usize>(t: &'a [u8], at: &[u16; N], len: &[u8; N], i: usize) -> &'a [u8]
    ensures result_value { result.now ≡ text_in N t.now at.now len.now i }
    ensures short { length result.now ≤ 255 }
{
    if i < N {
        base_text::cut::text_in(t, at[i], len[i])
    } else {
        &[]
    }
}
