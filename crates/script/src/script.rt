// A script that is read line by line, and what its calls are answered.
pub mod part;
pub mod reader;
pub mod replies;
