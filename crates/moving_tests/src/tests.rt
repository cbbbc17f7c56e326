//! The tests, by subject.

mod block_tests;
mod call_tests;
mod compare;
mod data_tests;
mod goal_tests;
mod graph_tests;
mod items;
mod layout_tests;
mod port_tests;
mod region_tests;
mod routine_tests;
mod sight_tests;
mod size_tests;
mod slot_model_tests;
mod slot_tests;
mod text_tests;
mod unlisted_move_tests;
mod unlisted_tests;
