//! Laws of trees: live pairs, what two images share, and the walk of a tree that keeps blocks.
#![tactic(auto)]

mod laws;
mod told;

pub use laws::{
    among_leads_law, array_apart_law, array_kept_law, array_law, array_moves_law,
    array_shifted_law, array_sound_law, array_walks_law, chunk_tree_law, chunks_merged_law,
    ends_law, gone_law, keeping_law, kept_law, kept_tree_law, kept_where_law, known_shared_law,
    last_law, leads_law, listing_law, lists_seen_law, lives_law, map_seen_law, marking_law,
    marks_law, meeting_law, merged_law, moved_law, moves_law, narrow_law, old_leads_law,
    old_side_law, read_alike_law, reads_twice_law, roots_merged_law, roots_seen_law, shifted_law,
    skipping_law, stops_law, stops_rest_law, stored_alike_law, supers_law, table_law, tables_law,
    tells_law, tree_table_law, trees_law, unshared_law, visits_law, walk_is_own,
};
pub use told::{Ended, Met, Start};
