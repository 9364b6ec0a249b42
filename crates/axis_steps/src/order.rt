// Places in document order.
ghost use Rattle.std.specs.Prelude.{◌≡◌, ◌<◌, IsTrue, filter};
ghost use Rattle.std.specs.List.{All, range_with_len};
ghost use Rattle.std.specs.List.Sorted.{IsStrictlyIncreasing};
ghost use Rattle.tree_model.specs.Nodes.{is_place_among};

// Whether each place is below the next.
fn rises(places: &[u32]) -> bool
    ensures { IsTrue result → IsStrictlyIncreasing places.now }
{
    places.windows(2).all(|pair| pair[0] < pair[1])
}

/// Puts places, all below `len`, into document order, each once.
pub fn in_document_order(places: &mut Vec<u32>, len: u32)
    requires { All (λ place. place < len) places.old.items }
    ensures { places.new.items ≡ filter (is_place_among places.old.items) (range_with_len 0 len) }
{
    if !rises(places) {
        places.sort_unstable();
        places.dedup();
    }
}
