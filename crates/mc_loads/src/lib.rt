//! What one client is told of columns: loads, changed cells, and what takes a column away.
//!
//! Stands on the land of `mc_land`, the views of `mc_view`, and the frames of `mc_sending`. Its one
//! contract: `push_columns` appends exactly the frames of what differs between the columns of the
//! view that was shown and those of the view that is, and counts exactly the looks at cells that
//! this takes.
#![tactic(auto)]

mod cells;
mod columns;
mod columns_view;
mod encoded_columns;
mod pieces;

pub use columns_view::ColumnsView;
pub use encoded_columns::EncodedColumns;
pub use pieces::push_piece;
