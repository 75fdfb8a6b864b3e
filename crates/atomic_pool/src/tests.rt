mod inboxes;
mod lines;
mod passing;
mod races;
mod ringing;
