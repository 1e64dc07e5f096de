// Lines of tokens (document 01, "Lines"), as upstream's parser reads them: where a line and its value start and end, and list values.
#![tactic(auto)]

pub mod line;
pub mod list;
pub mod value;
