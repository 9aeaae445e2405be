// Reading the shape of a text: its nodes, with the places of the leaves' tokens and the spans of the inner nodes noted in lent lists.
ghost use Rattle.std.specs.Prelude.{◌≡◌, ℕ, ◌+◌, ◌*◌, ◌^◌, ◌<◌, ◌≤◌, List, [], ◌∷◌, length, ◌≢◌, slice_set};
ghost use Rattle.std.proofs.lemmas.List.Edits.{sets};
ghost use Rattle.trees.specs.Held.{most_text};
ghost use Rattle.text.specs.Read.{kind_at, Skipped};
ghost use Rattle.newick.specs.Shape.{Ready, NodeReads, ChildrenReads, NodeRead, ShapeRead};

// Two numbers for each leaf that is judged, and for each inner node of a tree of 64 taxa.
pub const TOKENS: usize = 130;

pub const NODES: usize = 128;

// Where a reader stands: in the text, and how many leaves and inner nodes it has passed. A mark past the text is a fault of form.
#[derive(Clone, Copy)]
pub struct Mark {
    pub at: usize,
    pub leaves: usize,
    pub inner: usize,
}

// The shape of a whole text: of leaf k the ends of its token at 2k of `tokens`, of inner node j its span of leaves at 2j of `nodes`.
pub fn read_shape(text: &[u8], tokens: &mut [u16; TOKENS], nodes: &mut [u16; NODES]) -> Mark
    requires { length text.now ≤ most_text }
    ensures { ShapeRead text.now result tokens.old nodes.old tokens.new nodes.new }
{
    let from = Mark {
        at: 0,
        leaves: 0,
        inner: 0,
    };
    let r = read_node(text, from, 63, tokens, nodes);
    if r.at == text.len() {
        return r;
    }
    fault(text)
}

// The mark of a fault of form.
fn fault(text: &[u8]) -> Mark
    ensures { result.at ≡ length text.now + 1 }
{
    Mark {
        at: text.len() + 1,
        leaves: 0,
        inner: 0,
    }
}

// One node, with at most `depth` brackets open at once.
#[cycle(read_node_read_nodes)]
pub(crate) fn read_node(
    text: &[u8],
    c: Mark,
    depth: usize,
    tokens: &mut [u16; TOKENS],
    nodes: &mut [u16; NODES],
) -> Mark
    requires { Ready text.now c }
    ensures { NodeRead (NodeReads text.now depth c.at) text.now c result tokens.old nodes.old tokens.new nodes.new }
{
    let from = c.at;
    let at = text::skip_blanks(text, from);
    if !text::has_byte(text, at, b'(') {
        return read_leaf(text, c, at, tokens);
    }
    if depth == 0 {
        return fault(text);
    }
    let inside = Mark {
        at: at + 1,
        leaves: c.leaves,
        inner: c.inner,
    };
    read_nodes(text, inside, depth - 1, tokens, nodes)
}

// The leaf at `at`, behind blanks, where no bracket opens.
fn read_leaf(text: &[u8], c: Mark, at: usize, tokens: &mut [u16; TOKENS]) -> Mark
    requires ready { Ready text.now c }
    requires skipped { Skipped text.now c.at at × (kind_at text.now at ≢ 2) }
    ensures { (depth : ℕ) (nodes : List ℕ) → NodeRead (NodeReads text.now depth c.at) text.now c result tokens.old nodes tokens.new nodes }
{
    let e = text::label_end(text, at);
    if text.len() < e {
        return fault(text);
    }
    if e == at {
        return fault(text);
    }
    note(tokens, c.leaves, at, e);
    Mark {
        at: text::past_length(text, e),
        leaves: c.leaves + 1,
        inner: c.inner,
    }
}

// The children behind an opening bracket, with commas between, the closing bracket, and what may follow it.
#[cycle(read_node_read_nodes)]
pub(crate) fn read_nodes(
    text: &[u8],
    c: Mark,
    depth: usize,
    tokens: &mut [u16; TOKENS],
    nodes: &mut [u16; NODES],
) -> Mark
    requires { Ready text.now c }
    ensures { NodeRead (ChildrenReads text.now depth c.at) text.now c result tokens.old nodes.old tokens.new nodes.new }
{
    let mut d = c;
    let mut k = 0;
    // How many children there are, the closing bracket alone tells.
    loop {
        d = read_node(text, d, depth, tokens, nodes);
        k += 1;
        let at = d.at;
        if !text::has_byte(text, at, b',') {
            break;
        }
        let next = Mark {
            at: at + 1,
            leaves: d.leaves,
            inner: d.inner,
        };
        d = next;
    }
    let behind = d.at;
    let e = text::past_closing(text, behind, k);
    if text.len() < e {
        return fault(text);
    }
    note(nodes, d.inner, c.leaves, d.leaves);
    Mark {
        at: e,
        leaves: d.leaves,
        inner: d.inner + 1,
    }
}

// Writes a and b as pair k of the list, as far as it reaches.
fn note(list: &mut [u16], k: usize, a: usize, b: usize)
    requires { (2 * k + 2 < 2 ^ 64) × (a < 2 ^ 16) × (b < 2 ^ 16) }
    ensures { list.new ≡ sets list.old (2 * k) (a ∷ b ∷ []) }
{
    let i = 2 * k;
    put(list, i, a as u16);
    put(list, i + 1, b as u16);
}

// Writes v at i, where the list has such a place.
pub(crate) fn put<T: Copy>(list: &mut [T], i: usize, v: T)
    ensures { list.new ≡ slice_set list.old i v }
{
    if i < list.len() {
        list[i] = v;
    }
}
