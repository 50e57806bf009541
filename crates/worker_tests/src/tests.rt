mod meetings;
mod progress;
mod test_asserts;
mod test_gates;
mod test_words;
