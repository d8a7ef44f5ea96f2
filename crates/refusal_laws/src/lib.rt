// Every refusal that a call answers is one of the eight of document 01, though the type has room for other numbers: it stands in
// specs/, a law for each public function that answers a refusal.
#![tactic(auto)]
